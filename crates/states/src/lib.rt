// The states of two boards, compared with those that crates/states/make works out in another way.

#![tactic(auto)]

mod expected;

#[cfg(test)]
mod tests {
    use super::expected::{
        KINDS, KINDS_JOINED, KINDS_LAWFUL, KINDS_STATES, WORKED, WORKED_JOINED, WORKED_LAWFUL,
        WORKED_STATES,
    };
    use answer::State;
    use board::Board;
    use listed::Listed;
    use search::{Graph, count_joined, count_lawful};
    use std::alloc::Global;
    use std::process::Abort;
    use std::test::Fail;

    // Compares the board of a table with its number of states, its lawful states and its joined pairs.
    fn compare(
        rt: &impl Abort,
        heap: Global,
        table: &[u8],
        states: usize,
        lawful: &[State],
        joined: &[(State, State)],
    ) -> Result<(), Fail> {
        let (bank, rules) = Listed::read(heap, table)?;
        let board = Board::new(bank, rules);
        assert_eq!(rt; board.states(), states);
        for from in 0..1_000u16 {
            assert_eq!(rt; board.lawful(from), lawful.contains(&from));
            for to in 0..1_000u16 {
                if board.joined(from, to) {
                    assert!(rt; joined.contains(&(from, to)));
                }
            }
        }
        let pairs = (0..1_000u16)
            .map(|from| count_joined(&board, from))
            .fold(0, usize::saturating_add);
        assert_eq!(rt; count_lawful(&board), lawful.len());
        assert_eq!(rt; pairs, joined.len());
        Ok(())
    }

    // One test for each board: one that fails names its board.
    #[test]
    fn worked_board(rt: HostRuntime) -> Result<(), Fail> {
        compare(
            &rt,
            rt.alloc(),
            WORKED,
            WORKED_STATES,
            &WORKED_LAWFUL,
            &WORKED_JOINED,
        )
    }

    #[test]
    fn board_of_every_kind(rt: HostRuntime) -> Result<(), Fail> {
        compare(
            &rt,
            rt.alloc(),
            KINDS,
            KINDS_STATES,
            &KINDS_LAWFUL,
            &KINDS_JOINED,
        )
    }
}
