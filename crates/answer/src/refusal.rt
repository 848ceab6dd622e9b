// Why a call is sent back. Each refusal has its number.
ghost use Rattle.std.specs.Prelude.{◌≡◌};
ghost use Rattle.answer.specs.Answers.{refusal_number};

#[derive(Clone, Copy, Debug, PartialEq, Eq)]
pub enum Refusal {
    // A record or a header runs past the end of the bytes.
    Truncated = 1,
    // A record's kind is none that is known.
    UnknownKind = 2,
    // A record's length, or a list's, is none that its kind has.
    WrongLength = 3,
    // A figure or a level lies outside its range.
    OutOfRange = 4,
    // A part, a rule or a state too many.
    TooMany = 5,
    // A rule names an absent part, a part of the wrong kind, or one rail twice.
    WrongPart = 6,
    // A table or a bank has no part.
    NoPart = 7,
    // A buffer is too short, or a plan has no state.
    ShortBuffer = 8,
    // A state number is not below the number of states.
    NoSuchState = 9,
    // A state is unlawful.
    Unlawful = 10,
    // No chain joins the two ends.
    NoChain = 11,
    // The note is void.
    VoidNote = 12,
    // No write is left that way.
    NoWriteLeft = 13,
    // The present state differs from the plan's state at the place.
    OffPlan = 14,
    // The next state is not joined to the present one.
    NotJoined = 15,
    // The device balked.
    Balked = 16,
    // The device is unsure whether the write took.
    Unsure = 17,
    // Memory ran out.
    NoMemory = 255,
}

impl Refusal {
    // The number by which a refusal is known outside.
    pub fn number(&self) -> u8
        ensures { result ≡ refusal_number self.now }
    {
        *self as u8
    }
}
