// What a part of a board is.
ghost use Rattle.std.specs.Prelude.{◌≡◌, Some};
ghost use Rattle.device.specs.Answers.{kind_number, kind_word};

use std::fmt;

#[derive(Clone, Copy, Debug, PartialEq, Eq)]
pub enum Kind {
    // A regulator of a voltage rail.
    Rail = 0,
    // A clock.
    Clock = 1,
}

// What stands outside for the kind of an absent part: outside, a kind is one byte.
const ABSENT: u8 = 2;

impl Kind {
    // The number by which the kind of a part is known outside, where none is that of an absent part.
    pub fn number(kind: Option<Kind>) -> u8
        ensures { result ≡ kind_number kind }
    {
        kind.map_or(ABSENT, |kind| kind as u8)
    }
}

impl fmt::Display for Kind {
    ghost output = { λ kind. Some (kind_word kind) };

    fn fmt<W: fmt::Write>(&self, f: &mut fmt::Formatter<W>) -> fmt::Result {
        f.write_str(match self {
            Kind::Rail => "rail",
            Kind::Clock => "clock",
        })
    }
}
