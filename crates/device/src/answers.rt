// What a device answers to a write.
ghost use Rattle.std.specs.Prelude.{◌≡◌};
ghost use Rattle.device.specs.Answers.{answer_number};

#[derive(Clone, Copy, Debug, PartialEq, Eq)]
pub enum Answer {
    // The present code is the one asked for.
    Done = 0,
    // The present code is the old one.
    Balked = 1,
    // The present code is the old one or the one asked for.
    Unsure = 2,
    // There is no such write, and nothing changed.
    NoSuchWrite = 3,
}

impl Answer {
    // The number by which an answer is known outside.
    pub fn number(&self) -> u8
        ensures { result ≡ answer_number self.now }
    {
        *self as u8
    }
}
