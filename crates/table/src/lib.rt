// The constraint table of a board: its bytes read record by record, and as a whole.

#![tactic(auto)]

pub mod bytes;
mod first;
pub mod kind;
pub mod names;
mod range;
pub mod reader;
pub mod reading;
pub mod record;
pub mod rule;

pub use kind::RecordKind;
pub use names::Kinds;
pub use reader::Reader;
pub use reading::records;
pub use record::{Placed, Record};
pub use rule::Rule;

// A board has at most this many parts.
pub const MOST_PARTS: usize = 6;

// A board has at most this many rules.
pub const MOST_RULES: usize = 24;

// A board has at most this many states.
pub const MOST_STATES: usize = 4_096;
