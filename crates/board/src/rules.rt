// What the rules say of a state, and of a write from one state to another.
ghost use Rattle.std.specs.Prelude.{◌≡◌};
ghost use Rattle.std.specs.List.{list_all};
ghost use Rattle.board.specs.Joining.{allows as allows_by, adjacent as adjacent_by};
ghost use Rattle.board.specs.Lawfulness.{holds as holds_in};
ghost use Rattle.board.specs.Boards.{layout};
ghost use Rattle.board.specs.Layouts.{level_at};

use super::Board;
use super::change::Change;
use answer::State;
use bank::Bank;
use table::Rule;

impl<B: Bank> Board<B> {
    // The level of a part in a state, in µV or kHz.
    pub fn level_at(&self, state: State, part: u8) -> u32
        ensures { result ≡ level_at (layout B.model self.now) state part }
    {
        self.bank.level(part, self.code_at(state, part))
    }

    // Whether a rule holds in a state.
    fn holds(&self, state: State, rule: &Rule) -> bool
        ensures { result ≡ holds_in (layout B.model self.now) state rule.now }
    {
        match rule {
            Rule::Window {
                rail,
                floor,
                ceiling,
            } => {
                let level = self.level_at(state, *rail);
                *floor <= level && level <= *ceiling
            }
            Rule::Spread { rail, other, most } => {
                let level = self.level_at(state, *rail);
                level.abs_diff(self.level_at(state, *other)) <= *most
            }
            Rule::Step { .. } => true,
            Rule::Need {
                clock,
                above,
                rail,
                least,
            } => {
                let level = self.level_at(state, *clock);
                level <= *above || *least <= self.level_at(state, *rail)
            }
            Rule::Cap { clock, most } => self.level_at(state, *clock) <= *most,
        }
    }

    // Whether every rule holds in a state.
    pub(crate) fn keeps(&self, state: State) -> bool
        ensures { result ≡ list_all (holds_in (layout B.model self.now) state) self.now.rules.items }
    {
        self.rules().iter().all(|rule| self.holds(state, rule))
    }

    // Whether a rule allows the write of a part that leads from one state to another.
    // The write is three plain arguments: a struct of them would serve two private functions alone.
    fn allows(&self, from: State, to: State, part: u8, rule: &Rule) -> bool
        ensures { result ≡ allows_by (layout B.model self.now) from to part rule.now }
    {
        match rule {
            Rule::Step { rail, most } if *rail == part => {
                let level = self.level_at(from, part);
                level.abs_diff(self.level_at(to, part)) <= *most
            }
            _ => true,
        }
    }

    // Whether every rule allows the write.
    fn steps(&self, from: State, to: State, part: u8) -> bool
        ensures { result ≡ list_all (allows_by (layout B.model self.now) from to part) self.now.rules.items }
    {
        self.rules()
            .iter()
            .all(|rule| self.allows(from, to, part, rule))
    }

    // Whether two states are one allowed write apart.
    pub(crate) fn adjacent(&self, from: State, to: State) -> bool
        ensures { result ≡ adjacent_by (layout B.model self.now) from to }
    {
        match self.change(from, to) {
            Change::Only(part) => {
                let before = self.code_at(from, part);
                let after = self.code_at(to, part);
                self.bank.linked(part, before, after) && self.steps(from, to, part)
            }
            _ => false,
        }
    }
}
