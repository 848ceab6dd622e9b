// What a bench makes of a write.
ghost use Rattle.std.specs.Prelude.{◌≡◌};
ghost use Rattle.faults.specs.Outcomes.{outcome_number, Numbered};

use answer::{Fault, Refusal};

#[derive(Clone, Copy, Debug, PartialEq, Eq)]
pub enum Outcome {
    // The write is passed to the bank below.
    Pass = 0,
    // 'Balked', and nothing is asked below.
    Balk = 1,
    // 'Unsure', and nothing is asked below.
    Lose = 2,
    // The write is passed to the bank below, and 'done' is told as 'unsure'.
    Doubt = 3,
}

impl Outcome {
    // The number by which an outcome is known outside.
    pub fn number(&self) -> u8
        ensures { result ≡ outcome_number self.now }
    {
        *self as u8
    }
}

// The outcome of a number, or 4 for a number above 3.
impl TryFrom<u8> for Outcome {
    type Error = Fault;

    ghost try_from_gives = { Numbered };

    fn try_from(number: u8) -> Result<Outcome, Fault> {
        match number {
            0 => Ok(Outcome::Pass),
            1 => Ok(Outcome::Balk),
            2 => Ok(Outcome::Lose),
            3 => Ok(Outcome::Doubt),
            _ => Err(Fault::table(Refusal::OutOfRange, 0)),
        }
    }
}
