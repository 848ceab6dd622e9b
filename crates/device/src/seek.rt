// The search for a code by its level.
ghost use Rattle.device.specs.Seek.{Sought, RoundTrip};

use super::Code;
use super::devices::Regulator;

// The lowest code of the lowest level from low to high, both included; none where no level lies there.
pub fn seek<R: Regulator>(rail: &R, low: u32, high: u32) -> Option<Code>
    ensures found { Sought (R.model rail.now) low high result }
    ensures returns { RoundTrip (R.model rail.now) low high result }
{
    (0..rail.count())
        .filter(|code| (low..=high).contains(&rail.level(*code)))
        .min_by_key(|code| rail.level(*code))
}
