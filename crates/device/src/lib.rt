// Devices: a regulator or a clock, by its levels, its present code and its tally of writes.

#![tactic(auto)]

pub mod answers;
pub mod devices;
pub mod kind;
pub mod limits;
pub mod register;
pub mod seek;
pub mod supplied;

pub use answers::Answer;
pub use devices::{Clock, Device, Regulator};
pub use kind::Kind;
pub use supplied::Supplied;

// A device's selector, counted from 0.
pub type Code = u16;

// A device has at most this many codes.
pub const MOST_CODES: Code = 64;

// A tree clock has at most this many parents.
pub const MOST_PARENTS: usize = 8;

// A tree clock has at most this many divisors.
pub const MOST_DIVISORS: Code = 8;

// Levels are in µV on a rail and in kHz on a clock, each from 1 to this.
pub const TOP_LEVEL: u32 = 5_000_000;
