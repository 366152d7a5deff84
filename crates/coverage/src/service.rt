// The service from-rules.
ghost use Rattle.std.specs.Prelude.{◌≡◌, ◌*◌, ◌-◌, ◌^◌, ◌≤◌};
ghost use Rattle.files.specs.Room.{written};
ghost use Rattle.coverage.specs.Service.{from_rules_of};

use crate::cover::{Gaps, Gathering, Shares};
use files::Refusal;
use rulesheet::Sheet;

// Asks questions 19 and 20 of a sheet whose outputs' truth tables have room in N words, then writes the table.
fn write<const N: usize>(sheet: &Sheet<'_>, table: &mut [u8]) -> Result<u32, Refusal>
    requires { (sheet.now.outputs * 2 ^ (sheet.now.contacts - 6) ≤ N) × (N ≤ 512) }
    ensures { written result table.new ≡ from_rules_of sheet.now.file.now table.old }
{
    let mut gathering: Gathering<N> = Gathering::new(sheet);
    let Shares::Apart = gathering.ask_shares(sheet) else {
        return Err(Refusal::Shares);
    };
    let Gaps::Covered = gathering.ask_gaps() else {
        return Err(Refusal::Gaps);
    };
    rows::write(&gathering.truths, sheet.contacts, sheet.outputs, table)
}

// Writes the table that gives each input the word of its rule from the start of the lent buffer and returns its length; a refusal leaves
// the buffer as it came. The room for the truth tables has one of three lengths.
pub fn from_rules(rules: &[u8], table: &mut [u8]) -> Result<u32, Refusal>
    ensures { written result table.new ≡ from_rules_of rules.now table.old }
{
    let Some(sheet) = rulesheet::ask_form(rules) else {
        return Err(Refusal::Rules);
    };
    let most = sheet.outputs << rows::fixed_contacts(sheet.contacts);
    // Chosen here: a length is a const argument, which no function hands in.
    if most <= 8 {
        return write::<8>(&sheet, table);
    }
    if most <= 64 {
        return write::<64>(&sheet, table);
    }
    write::<512>(&sheet, table)
}
