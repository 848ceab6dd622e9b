// A board as a graph: its states, which of them are lawful, and which two are joined.
ghost use Rattle.std.specs.Prelude.{◌≡◌, Decides};
ghost use Rattle.board.specs.Boards.{board_graph, layout};
ghost use Rattle.board.specs.Joining.{are_joined, Joined};
ghost use Rattle.board.specs.Lawfulness.{is_lawful, Lawful};
ghost use Rattle.board.specs.Joins.{board_meaning, few_states};

use super::Board;
use answer::State;
use bank::Bank;
use search::Graph;

impl<B: Bank> Graph for Board<B> {
    ghost model = { λ b. board_graph (layout B.model b) };

    ghost meaning = { λ b. board_meaning (B.model b.bank) (B.sound b.bank) b.rules.items };

    ghost few = { λ b. few_states (layout B.model b) };

    fn states(&self) -> usize {
        self.verdict().unwrap_or(0)
    }

    fn lawful(&self, state: State) -> bool
        ensures value { result ≡ is_lawful (layout B.model self.now) state }
        ensures decides { Decides result (Lawful (layout B.model self.now) state) }
    {
        usize::from(state) < self.states() && self.keeps(state)
    }

    // The cheap tests come first: most pairs differ in more than one part. Two states, and no struct of them: it would have no
    // method.
    fn joined(&self, from: State, to: State) -> bool
        ensures value { result ≡ are_joined (layout B.model self.now) from to }
        ensures decides { Decides result (Joined (layout B.model self.now) from to) }
    {
        self.adjacent(from, to) && self.lawful(from) && self.lawful(to)
    }
}
