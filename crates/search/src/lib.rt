// Graphs: all that a search sees of a board, or of a clock by itself.

#![tactic(auto)]

ghost use Rattle.std.specs.Prelude.{◌≡◌, ◌≤◌};
ghost use Rattle.search.specs.Graphs.{GraphModel, Meaning, passing};

use answer::State;

pub trait Graph {
    // What the graph means.
    ghost model: { Self → GraphModel };

    // How many states there are.
    fn states(&self) -> usize
        ensures { result ≡ (model self.now).states };

    // Whether a state is lawful.
    fn lawful(&self, state: State) -> bool
        ensures { result ≡ (model self.now).lawful state };

    // Whether one write leads from one lawful state to the other.
    fn joined(&self, from: State, to: State) -> bool
        ensures { result ≡ (model self.now).joined from to };

    ghost meaning: { (x : Self) → Meaning (model x) };

    ghost few: { (x : Self) → (model x).states ≤ 4096 };
}

// How many states of a graph are lawful.
pub fn count_lawful<G: Graph>(graph: &G) -> usize
    ensures { result ≡ passing (G.model graph.now).lawful (G.model graph.now).states }
{
    (0..graph.states() as State)
        .filter(|state| graph.lawful(*state))
        .count()
}

// How many states are joined to a state.
pub fn count_joined<G: Graph>(graph: &G, from: State) -> usize
    ensures { result ≡ passing ((G.model graph.now).joined from) (G.model graph.now).states }
{
    (0..graph.states() as State)
        .filter(|state| graph.joined(from, *state))
        .count()
}
