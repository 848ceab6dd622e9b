// A board's states by number: the present one, and the codes of any.
ghost use Rattle.std.specs.Prelude.{◌≡◌, ◌≤◌, ◌↔◌, None};
ghost use Rattle.std.specs.Result.{result_err};
ghost use Rattle.answer.specs.Answers.{state_number};
ghost use Rattle.bank.specs.States.{number, weight, counts};
ghost use Rattle.board.specs.Boards.{Numbered, Decoded, layout};
ghost use Rattle.board.specs.Joining.{change as change_of};
ghost use Rattle.board.specs.Layouts.{NoDefect, verdict_of, code_at, encoded, present, present_state};

use super::Board;
use super::change::Change;
use super::judge::judge;
use answer::{Refusal, State};
use bank::Bank;
use device::Code;
use table::Rule;

impl<B: Bank> Board<B> {
    // A bank under rules.
    pub fn new(bank: B, rules: Vec<Rule>) -> Board<B>
        ensures { (result.bank ≡ bank) × (result.rules ≡ rules) }
    {
        let verdict = judge(&bank, &rules);
        Board {
            bank,
            rules,
            verdict,
        }
    }

    // The bank, for its questions.
    pub fn bank(&self) -> &B
        ensures { result.now ≡ self.now.bank }
    {
        &self.bank
    }

    // The rules, in order.
    pub fn rules(&self) -> &[Rule]
        ensures { result.now ≡ self.now.rules.items }
    {
        self.rules.as_slice()
    }

    // The number of states, or the first defect.
    pub(crate) fn verdict(&self) -> Result<usize, Refusal>
        ensures { result ≡ verdict_of (layout B.model self.now) }
    {
        self.verdict
    }

    // The first defect of the board: 7, 5 or 6, or none.
    pub fn inspect(&self) -> Option<Refusal>
        ensures none { (result ≡ None) ↔ NoDefect (layout B.model self.now) }
        ensures first { result ≡ result_err (verdict_of (layout B.model self.now)) }
    {
        self.verdict().err()
    }

    // The number of the present codes, on a board with no defect.
    fn encode(&self) -> State
        requires { let m = B.model self.now.bank in weight (counts m) m.parts ≤ 4096 }
        ensures { result ≡ encoded (B.model self.now.bank) }
    {
        (0..self.bank.parts()).rev().fold(0, |state, part| {
            state * usize::from(self.bank.count(part)) + usize::from(self.bank.code(part))
        }) as State
    }

    // The present state, none with a defect.
    pub fn state(&self) -> Option<State>
        ensures state { result ≡ present_state (B.model self.now.bank) self.now.rules.items }
        ensures number { state_number result ≡ present (B.model self.now.bank) self.now.rules.items }
        ensures numbered { Numbered (B.model self.now.bank) self.now.rules.items (state_number result) }
    {
        self.verdict().ok().map(|_| self.encode())
    }

    // The code of a part in a state, 0 for an absent part.
    pub fn code_at(&self, state: State, part: u8) -> Code
        ensures code { result ≡ code_at (layout B.model self.now) state part }
        ensures decoded { Decoded (layout B.model self.now) state }
    {
        if part >= self.bank.parts() {
            return 0;
        }
        let rest = (0..part).fold(state, |rest, before| rest / self.bank.count(before));
        rest % self.bank.count(part)
    }

    // Where two states differ.
    pub fn change(&self, from: State, to: State) -> Change
        ensures { let l = layout B.model self.now in result ≡ change_of l.count from to l.parts }
    {
        // A loop: a `filter` by `code_at` was tried: 2.15 times a plain program's time (bench/joined), this loop 1.04; a
        // `try_fold` that carries both rests is this loop in other words.
        let mut change = Change::Same;
        let mut a = from;
        let mut b = to;
        'parts: for part in 0..self.bank.parts() {
            let count = self.bank.count(part);
            change = change.with(part, a % count == b % count);
            if change == Change::Several {
                return change;
            }
            a /= count;
            b /= count;
        }
        change
    }
}
