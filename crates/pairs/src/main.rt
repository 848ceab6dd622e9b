// Reads a constraint table from standard input, judges every pair of its board's states, and prints how many states there
// are, how many are lawful, and how many pairs are joined; or the number of its refusal.

#![tactic(auto)]

use answer::State;
use bench::{Line, MOST_BYTES};
use board::Board;
use listed::Listed;
use search::{Graph, count_joined, count_lawful};
use std::io;
use std::io::Read;

// How many pairs of a graph's states are joined, each counted from both ends.
fn count_pairs<G: Graph>(graph: &G) -> usize {
    (0..graph.states())
        .map(|state| count_joined(graph, state as State))
        .fold(0, usize::saturating_add)
}

fn main(rt: HostRuntime) -> io::Result<()> {
    let heap = rt.alloc();
    let mut table = Vec::new(heap);
    rt.stdin().take(MOST_BYTES).read_to_end(&mut table)?;
    match Listed::read(heap, &table) {
        Ok((bank, rules)) => {
            let board = Board::new(bank, rules);
            rt.println(Line::States(board.states()))?;
            rt.println(Line::Lawful(count_lawful(&board)))?;
            let pairs = count_pairs(&board);
            println!(rt; "joined {pairs}")
        }
        Err(fault) => rt.println(Line::Refused(fault.refusal)),
    }
}
