// Where two states differ.
ghost use Rattle.std.specs.Prelude.{◌≡◌, if◌then◌else◌};
ghost use Rattle.board.specs.Joining.{beside};

// Three answers: an `Option` of a part would not tell none from several.
#[derive(Clone, Copy, Debug, PartialEq, Eq)]
pub enum Change {
    // In no part.
    Same,
    // In just this part.
    Only(u8),
    // In more than one part.
    Several,
}

impl Change {
    // One part more, in which they agree or not.
    pub(crate) fn with(self, part: u8, agree: bool) -> Change
        ensures { result ≡ (if agree then self else beside self part) }
    {
        if agree {
            return self;
        }
        match self {
            Change::Same => Change::Only(part),
            _ => Change::Several,
        }
    }
}
