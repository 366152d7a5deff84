// A well-formed rule sheet, and its rules one after the other.
ghost use Rattle.std.specs.Prelude.{◌≡◌, length};
ghost use Rattle.std.specs.Iterator.{YieldsFirstRef, item_count};
ghost use Rattle.std.proofs.Props.{props};
ghost use Rattle.fields.specs.Fields.{fields_of};
ghost use Rattle.rulesheet.specs.Rules.{rule_sheet_in, form_of, form_number};
ghost use Rattle.rulesheet.specs.Inner.Form.{rules_from, rules_in};

// What question 18 finds out of a file: the place of its first rule, and the counts of contacts, outputs and rules.
#[derive(Clone, Copy, Drop)]
pub struct Sheet<'a> {
    pub file: &'a [u8],
    pub at: usize,
    pub contacts: usize,
    pub outputs: usize,
    pub count: usize,
    pub ghost formed: { form_number (form_of (fields_of file.now)) ≡ 0 },
    pub ghost counted: { (contacts ≡ (rule_sheet_in file.now).contacts) × (outputs ≡ (rule_sheet_in file.now).outputs)
        × (count ≡ (rule_sheet_in file.now).count) },
    pub ghost placed: { rules_from file.now at ≡ rules_in file.now } by { Prim.hlevel props },
}

// The rules from a place on, so many: of each a byte for each contact, then the word. The count ends them, for notes may follow the last.
#[derive(Clone, Copy, Drop)]
pub struct Rules<'a> {
    pub file: &'a [u8],
    pub at: usize,
    pub left: usize,
    pub ghost counted: { left ≡ length (rules_from file.now at) },
}

impl<'a> Sheet<'a> {
    // Its rules, in the order of the file.
    pub fn rules(&self) -> Rules<'a>
        ensures { rules_from result.file.now result.at ≡ rules_in self.now.file.now }
    {
        Rules {
            file: self.file,
            at: self.at,
            left: self.count,
        }
    }
}

impl<'a> Iterator for Rules<'a> {
    type Item = &'a [u8];

    ghost next_gives = { YieldsFirstRef (λ s. rules_from s.file.now s.at) };

    ghost remaining = { item_count (λ s. rules_from s.file.now s.at) };

    fn next(&mut self) -> Option<&'a [u8]> {
        let left = self.left.checked_sub(1)?;
        let (field, past) = files::take(self.file, self.at)?;
        *self = Rules {
            file: self.file,
            at: past,
            left,
        };
        Some(fields::value(self.file, field))
    }
}
