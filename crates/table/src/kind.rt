// The kinds of records that a table has.
ghost use Rattle.std.specs.Prelude.{◌≡◌};
ghost use Rattle.table.specs.Kinds.{kind_number, Decodes, body_ok};

use answer::Refusal;

#[derive(Clone, Copy, Debug, PartialEq, Eq)]
pub enum RecordKind {
    LinearRail = 1,
    TableRail = 2,
    DividerClock = 3,
    TreeClock = 4,
    Window = 5,
    Spread = 6,
    Step = 7,
    Need = 8,
    Cap = 9,
}

impl TryFrom<u16> for RecordKind {
    type Error = Refusal;

    ghost try_from_gives = { Decodes };

    // The kind of this number, refused where no kind has it.
    fn try_from(number: u16) -> Result<Self, Refusal> {
        match number {
            1 => Ok(RecordKind::LinearRail),
            2 => Ok(RecordKind::TableRail),
            3 => Ok(RecordKind::DividerClock),
            4 => Ok(RecordKind::TreeClock),
            5 => Ok(RecordKind::Window),
            6 => Ok(RecordKind::Spread),
            7 => Ok(RecordKind::Step),
            8 => Ok(RecordKind::Need),
            9 => Ok(RecordKind::Cap),
            _ => Err(Refusal::UnknownKind),
        }
    }
}

impl RecordKind {
    // The number by which a kind stands in a table.
    pub fn number(&self) -> u16
        ensures { result ≡ kind_number self.now }
    {
        *self as u16
    }

    // Whether a record of this kind can have a body of that many bytes.
    pub fn holds(&self, body: usize) -> bool
        ensures { result ≡ body_ok self.now body }
    {
        match self {
            RecordKind::LinearRail => body == 9,
            RecordKind::TableRail => body % 4 == 0 && (4..=256).contains(&body),
            RecordKind::DividerClock => body == 5,
            RecordKind::TreeClock => body % 4 == 1 && (5..=33).contains(&body),
            RecordKind::Window => body == 9,
            RecordKind::Spread => body == 6,
            RecordKind::Step => body == 5,
            RecordKind::Need => body == 10,
            RecordKind::Cap => body == 5,
        }
    }
}
