// What the programs print, as values: every line, and its bytes.

#![tactic(auto)]

pub mod levels;
pub mod line;

// No accepted table is this long, so a program reads no more of its input.
pub const MOST_BYTES: u64 = 4_096;

pub use line::Line;
