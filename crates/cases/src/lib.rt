// Tables and what the reader answers of them: one table of cases, and every cut of a good table.

#![tactic(auto)]

mod cases;

#[cfg(test)]
mod tests {
    use super::cases::{CASES, WORKED};
    use listing::Listing;
    use std::alloc::Global;

    // The number and the place of a table's refusal, none where it is accepted.
    fn refused(heap: Global, table: &[u8]) -> Option<(u8, usize)> {
        Listing::read(heap, table)
            .err()
            .map(|fault| (fault.refusal.number(), fault.place))
    }

    #[test]
    fn each_case(rt: HostRuntime) {
        for case in CASES.iter() {
            assert_eq!(rt;
                refused(rt.alloc(), case.table),
                case.refused,
                "{}",
                case.name
            );
        }
    }

    // Where a record ends, and so a shorter table that is accepted, but for the empty one: a table of constants, so an array.
    const ENDS: [usize; 7] = [0, 13, 29, 38, 48, 57, 71];

    #[test]
    fn every_cut(rt: HostRuntime) {
        let worked: &[u8] = WORKED;
        for cut in 1..worked.len() {
            let whole = ENDS.iter().skip(1).filter(|end| **end <= cut).count();
            let wanted = if ENDS.contains(&cut) {
                None
            } else {
                Some((1, whole))
            };
            assert_eq!(rt; refused(rt.alloc(), &worked[0..cut]), wanted);
        }
    }
}
