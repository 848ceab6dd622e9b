// A bench's faults: any bank, with outcomes that its writes are to have.

#![tactic(auto)]

pub mod outcome;
pub mod over;
pub mod tallies;

pub use outcome::Outcome;
pub use over::Faulting;

// At most this many outcomes are held.
pub const MOST_OUTCOMES: usize = 32;
