// Tallies of writes, one for each part that a bank can show.
ghost use Rattle.std.specs.Prelude.{◌≡◌, ℕ, ◌^◌, ◌<◌, replicate, slice_index, slice_set};
ghost use Rattle.device.specs.Device.{counted_on};

#[derive(Drop)]
pub struct Tallies {
    // An array, since a list would have to be allocated.
    counts: [u64; 32],
    ghost counted: { (p : ℕ) → slice_index counts p < 2 ^ 64 },
}

impl Tallies {
    // No write counted.
    pub(crate) fn new() -> Tallies
        ensures { result.counts ≡ replicate 32 0 }
    {
        Tallies { counts: [0; 32] }
    }

    // How many writes to a part were counted.
    pub(crate) fn of(&self, part: u8) -> u64
        requires { part < 32 }
        ensures { result ≡ slice_index self.now.counts part }
    {
        self.counts[usize::from(part)]
    }

    // One more write to a part, and no more at the top of 64 bits.
    pub(crate) fn count(&mut self, part: u8)
        requires { part < 32 }
        ensures { self.new.counts ≡ slice_set self.old.counts part (counted_on (slice_index self.old.counts part)) }
    {
        // No loop: the count is what a tally is.
        let tally = &mut self.counts[usize::from(part)];
        *tally = tally.saturating_add(1);
    }
}
