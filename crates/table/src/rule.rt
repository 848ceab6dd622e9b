// A rule of a board. Rails and clocks go by their part numbers, levels are in µV and rates in kHz.
#[derive(Clone, Copy, Debug, PartialEq, Eq)]
pub enum Rule {
    // The rail stands from floor to ceiling.
    Window {
        rail: u8,
        floor: u32,
        ceiling: u32,
    },
    // The levels of the two rails differ by at most this.
    Spread {
        rail: u8,
        other: u8,
        most: u32,
    },
    // One write changes the rail's level by at most this.
    Step {
        rail: u8,
        most: u32,
    },
    // Where the clock is faster than `above`, the rail stands at `least` or higher.
    Need {
        clock: u8,
        above: u32,
        rail: u8,
        least: u32,
    },
    // The clock's rate is at most this.
    Cap {
        clock: u8,
        most: u32,
    },
}
