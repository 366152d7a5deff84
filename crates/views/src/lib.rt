// What a case shows of files, tables, drawings, rule sheets, runs, steps and sheets.
#![tactic(auto)]

pub mod drawings;
pub mod field_rows;
pub mod rules;
pub mod runs;
pub mod sheets;
pub mod steps;
pub mod tables;
