// A netlist file read under questions 11 and 12.
ghost use Rattle.std.specs.Prelude.{◌≡◌, IfOk};
ghost use Rattle.files.specs.Refusals.{number_in};
ghost use Rattle.wiring.specs.Questions.{netlist_refusal};
ghost use Rattle.wiring.specs.Inner.Read.{PartsOf};

use crate::parts::Parts;
use crate::sound::Wiring;
use crate::{form, sound};
use files::Refusal;

// The parts of a netlist file, under questions 11 and 12.
pub fn read(file: &[u8]) -> Result<Parts<'_>, Refusal>
    ensures refusal { number_in result ≡ netlist_refusal file.now }
    ensures parts { IfOk result (λ p. PartsOf file.now p) }
{
    let Some(parts) = form::ask_form(file) else {
        return Err(Refusal::Form);
    };
    let Wiring::Sound = sound::ask_wiring(parts.contacts, parts.gates, parts.outputs, parts.lamp)
    else {
        return Err(Refusal::Wiring);
    };
    Ok(parts)
}
