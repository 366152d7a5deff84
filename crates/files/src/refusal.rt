// Why a service refuses: the first question that got a no.
ghost use Rattle.std.specs.Prelude.{◌≡◌};
ghost use Rattle.files.specs.Refusals.{number_of};

// One for each question.
#[derive(Clone, Copy, Debug, PartialEq, Eq, Drop)]
pub enum Refusal {
    Framing,
    Contacts,
    Outputs,
    Levels,
    Range,
    Twins,
    Numbering,
    Room,
    Input,
    Form,
    Wiring,
    Rails,
    Holds,
    Fanout,
    Drawing,
    Width,
    Rules,
    Shares,
    Gaps,
    Place,
}

impl Refusal {
    // The question's number.
    pub fn number(self) -> u32
        ensures { result ≡ number_of self }
    {
        match self {
            Refusal::Framing => 1,
            Refusal::Contacts => 2,
            Refusal::Outputs => 3,
            Refusal::Levels => 4,
            Refusal::Range => 5,
            Refusal::Twins => 6,
            Refusal::Numbering => 7,
            Refusal::Room => 9,
            Refusal::Input => 10,
            Refusal::Form => 11,
            Refusal::Wiring => 12,
            Refusal::Rails => 13,
            Refusal::Holds => 14,
            Refusal::Fanout => 15,
            Refusal::Drawing => 16,
            Refusal::Width => 17,
            Refusal::Rules => 18,
            Refusal::Shares => 19,
            Refusal::Gaps => 20,
            Refusal::Place => 21,
        }
    }
}
