// What files share: their fields one after the other, the first of them (question 2), fields of whole parts, fields written, and
// question 9.
#![tactic(auto)]

mod header;
mod parts;
mod refusal;
mod room;
mod row;
mod write;

pub use header::{count_contacts, number_field};
pub use parts::has_parts;
pub use refusal::Refusal;
pub use room::{Room, Written, ask_room};
pub use row::{Row, ends_at, first_four, take};
pub use write::{copy, put_field, put_number};
