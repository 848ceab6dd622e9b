// Boards: a bank under rules, its states by number, which of them are lawful and which two are joined.

#![tactic(auto)]

ghost use Rattle.std.specs.Prelude.{◌≡◌};
ghost use Rattle.board.specs.Layouts.{layout_of, verdict_of};

use answer::Refusal;
use bank::Bank;
use table::Rule;

pub mod change;
pub mod graph;
mod judge;
pub mod numbers;
pub mod rules;
pub mod write;

pub use change::Change;

// Any bank, under rules.
#[derive(Drop)]
pub struct Board<B: Bank> {
    bank: B,
    rules: Vec<Rule>,
    // The number of states, or the first defect.
    verdict: Result<usize, Refusal>,
    ghost judged: { verdict ≡ verdict_of (layout_of (B.model bank) rules.items) },
}
