// The listed bank: the parts that a table lists, each of a supplied kind. It is done wherever a write exists.

#![tactic(auto)]

ghost use Rattle.std.specs.Prelude.{◌≤◌, length};

use listing::Part;

pub mod questions;
pub mod read;
pub mod set;

// No model by the list of its parts: a refused `set` leaves the whole `Vec` as it is, which that list does not tell.
#[derive(Drop)]
pub struct Listed {
    parts: Vec<Part>,
    ghost few: { length parts.items ≤ 32 },
}
