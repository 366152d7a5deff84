// Which inputs fit a rule, and the outputs' truth tables, rule by rule: questions 19 and 20.
ghost use Rattle.std.specs.Prelude.{◌≡◌, cond, ◌*◌, ◌-◌, ◌^◌, ◌≤◌, ◌<◌, length, get_or, set};
ghost use Rattle.std.specs.Int.Bits.{bit_or};
ghost use Rattle.fields.specs.Bounded.{all};
ghost use Rattle.rulesheet.specs.Rules.{rule_sheet_in, has_output};
ghost use Rattle.cubes.specs.Inner.Cubes.{CubeOf};
ghost use Rattle.coverage.specs.declared.cover.Shares.TheVariants.{Apart};
ghost use Rattle.coverage.specs.Coverage.{shares_of};
ghost use Rattle.coverage.specs.Inner.Gathering.{Marked, PutIf, AddedIf, Gathered, Begun, is_full, gaps_by};

use cubes::Cube;
use rulesheet::Sheet;

// Question 19's answer. An enum of its own: `shares_number` states the number of each case.
#[derive(Clone, Copy, Drop)]
pub enum Shares {
    Apart,
    Shared,
}

// Question 20's answer. An enum of its own: `gaps_number` states the number of each case.
#[derive(Clone, Copy, Drop)]
pub enum Gaps {
    Covered,
    Open,
}

// A rule: the inputs that fit it, and its permit word.
#[derive(Clone, Copy, Drop)]
struct Rule {
    cube: Cube,
    word: u8,
}

impl Rule {
    // The rule that a value says: a byte for each of n contacts, then the word.
    fn of(value: &[u8], n: usize) -> Self
        requires { (n ≤ 12) × (n < length value.now) }
        ensures { CubeOf n value.now result.cube × (result.word ≡ get_or value.now n 0) }
    {
        Rule {
            cube: cubes::cube_of(value, n),
            word: value[n],
        }
    }
}

// Puts a pattern into a word of a truth table, if a permit word has the table's output.
fn mark_one(truths: &mut [u64], at: usize, word: u8, j: usize, pattern: u64)
    requires { (j < 8) × (at < length truths.old) × (length truths.old ≤ 512) }
    ensures { truths.new ≡ set truths.old at (bit_or (get_or truths.old at 0) (cond (has_output word j) pattern 0)) }
{
    if (word >> j) % 2 == 0 {
        return;
    }
    truths[at] |= pattern;
}

// How truth tables lie in an array: of so many outputs, each in so many words of 64 inputs.
#[derive(Clone, Copy, Drop)]
struct Tables {
    words: usize,
    outputs: usize,
    ghost few: { (outputs ≤ 8) × (words ≤ 64) },
}

impl Tables {
    // Puts a pattern into word w of the truth tables of the outputs that a permit word has. An output's number is also the bit of the word.
    fn mark(self, truths: &mut [u64], w: usize, word: u8, pattern: u64)
        requires { (w < self.words) × (self.outputs * self.words ≤ length truths.old) × (length truths.old ≤ 512) }
        ensures { Marked self.words self.outputs w word pattern truths.old truths.new }
    {
        for j in 0..self.outputs {
            mark_one(truths, j * self.words + w, word, j, pattern);
        }
    }
}

// Whether every bit of some words is set.
fn are_full(words: &[u64]) -> bool
    ensures { result ≡ all (length words.now) (λ i. is_full (get_or words.now i 0)) }
{
    words.iter().all(|word| *word == bits::ONES)
}

// The inputs that fit a rule before, and the outputs' truth tables by these rules: so many words of 64 inputs each, in
// arrays, as there is no heap.
#[derive(Drop)]
pub struct Gathering<const N: usize> {
    words: usize,
    outputs: usize,
    ruled: [u64; 64],
    pub truths: [u64; N],
    ghost room: { (outputs ≤ 8) × (words ≤ 64) × (outputs * words ≤ N) × (N ≤ 512) },
}

impl<const N: usize> Gathering<N> {
    // No rule yet.
    pub fn new(sheet: &Sheet<'_>) -> Self
        requires { (sheet.now.outputs * 2 ^ (sheet.now.contacts - 6) ≤ N) × (N ≤ 512) }
        ensures { Begun (rule_sheet_in sheet.now.file.now) result.words result.outputs result.ruled result.truths }
    {
        Gathering {
            words: 1usize << rows::fixed_contacts(sheet.contacts),
            outputs: sheet.outputs,
            ruled: [0; 64],
            truths: [0; N],
        }
    }

    // Adds the inputs of a rule in word w to those that fit a rule, and to the truth tables of the outputs that it has, if none of them
    // fits a rule before. The sizes are handed over: with those of self, read again in every word, from-rules was slower by a third.
    fn add_word(&mut self, rule: Rule, tables: Tables, w: usize) -> Shares
        requires { (w < self.old.words) × (tables.words ≡ self.old.words) × (tables.outputs ≡ self.old.outputs) }
        ensures same { (self.new.words ≡ self.old.words) × (self.new.outputs ≡ self.old.outputs) }
        ensures put { PutIf result self.old.words self.old.outputs rule.cube rule.word w self.old.ruled self.old.truths self.new.ruled self.new.truths }
    {
        if !rule.cube.words.has(w) {
            return Shares::Apart;
        }
        let before = self.ruled[w];
        if before & rule.cube.pattern != 0 {
            return Shares::Shared;
        }
        self.ruled[w] = before | rule.cube.pattern;
        tables.mark(&mut self.truths, w, rule.word, rule.cube.pattern);
        Shares::Apart
    }

    // The same in every word, by its number, to the first input that fits a rule before. Inlined, it lacks registers: a tenth slower.
    #[inline(never)]
    fn add(&mut self, rule: Rule) -> Shares
        ensures same { (self.new.words ≡ self.old.words) × (self.new.outputs ≡ self.old.outputs) }
        ensures added { AddedIf result self.old.words self.old.outputs rule.cube rule.word self.old.ruled self.old.truths self.new.ruled self.new.truths }
    {
        let tables = Tables {
            words: self.words,
            outputs: self.outputs,
        };
        for w in 0..tables.words {
            let Shares::Apart = self.add_word(rule, tables, w) else {
                return Shares::Shared;
            };
        }
        Shares::Apart
    }

    // Question 19: does no input fit two rules? If so, all are gathered.
    pub fn ask_shares(&mut self, sheet: &Sheet<'_>) -> Shares
        requires { Begun (rule_sheet_in sheet.now.file.now) self.old.words self.old.outputs self.old.ruled self.old.truths }
        ensures value { result ≡ shares_of (rule_sheet_in sheet.now.file.now) }
        ensures same { (self.new.words ≡ self.old.words) × (self.new.outputs ≡ self.old.outputs) }
        ensures gathered { let s = rule_sheet_in sheet.now.file.now in result ≡ Apart → Gathered s s.count self.new.ruled self.new.truths }
    {
        for value in sheet.rules() {
            let Shares::Apart = self.add(Rule::of(value, sheet.contacts)) else {
                return Shares::Shared;
            };
        }
        Shares::Apart
    }

    // Question 20: does every input fit a rule?
    pub fn ask_gaps(&self) -> Gaps
        ensures { result ≡ gaps_by self.now.ruled self.now.words }
    {
        if are_full(&self.ruled[..self.words]) {
            Gaps::Covered
        } else {
            Gaps::Open
        }
    }
}
