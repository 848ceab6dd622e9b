// The ranges of the figures that devices are made from.
ghost use Rattle.std.specs.Prelude.{◌≡◌};
ghost use Rattle.device.specs.Figures.{from_to, level_ok, levels_ok, linear, divider, ranged};

use super::{Code, MOST_CODES, MOST_DIVISORS, TOP_LEVEL};

// Three ranges have a test each, of one call: a generic test would take the bound, which is what their names say.

// A level, a parent's rate or a step: 1 to 5,000,000.
pub fn is_level(level: u32) -> bool
    ensures { result ≡ level_ok level }
{
    (1..=TOP_LEVEL).contains(&level)
}

// Each of a list of levels.
pub fn are_levels(levels: &[u32]) -> bool
    ensures { result ≡ levels_ok levels.now }
{
    levels.iter().all(|level| is_level(*level))
}

// A number of codes: 1 to 64.
pub fn is_count(count: Code) -> bool
    ensures { result ≡ from_to 1 64 count }
{
    (1..=MOST_CODES).contains(&count)
}

// A number of divisors: 1 to 8.
pub fn is_divisors(divisors: Code) -> bool
    ensures { result ≡ from_to 1 8 divisors }
{
    (1..=MOST_DIVISORS).contains(&divisors)
}

// The figures of a linear rail, its highest level too. What holds the three together is the rail that is made of them.
pub fn is_linear(lowest: u32, step: u32, count: Code) -> bool
    ensures { result ≡ ranged (linear lowest step count) }
{
    is_level(lowest)
        && is_level(step)
        && is_count(count)
        && lowest + (u32::from(count) - 1) * step <= TOP_LEVEL
}

// The figures of a divider clock.
pub fn is_divider(parent: u32, count: Code) -> bool
    ensures { result ≡ ranged (divider parent count) }
{
    is_level(parent) && is_count(count)
}
