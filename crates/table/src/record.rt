// One record of a table, as it stands in the bytes.
ghost use Rattle.std.specs.Prelude.{◌≡◌, true, length};
ghost use Rattle.table.specs.Kinds.{body_ok};
ghost use Rattle.table.specs.Meaning.{meant, Own};
ghost use Rattle.table.specs.Records.{decode as held};

use super::bytes::word;
use super::kind::RecordKind;
use super::rule::Rule;

#[derive(Clone, Copy, Debug, PartialEq, Eq)]
pub enum Record<'a> {
    LinearRail { lowest: u32, step: u32, count: u8 },
    // The listed levels, four bytes each: a part of the table's own bytes.
    TableRail { levels: &'a [u8] },
    DividerClock { parent: u32, count: u8 },
    // The parents' rates, four bytes each: a part of the table's own bytes.
    TreeClock { divisors: u8, parents: &'a [u8] },
    Rule(Rule),
}

// A record with its number from 0 and its offset in the table.
#[derive(Clone, Copy, Debug, PartialEq, Eq)]
pub struct Placed<'a> {
    pub record: Record<'a>,
    pub number: usize,
    pub offset: usize,
}

// The record that a body of this kind holds.
pub(crate) fn decode<'a>(kind: RecordKind, body: &'a [u8]) -> Record<'a>
    requires { body_ok kind (length body.now) ≡ true }
    ensures held { meant result ≡ held kind body.now }
    ensures own { Own result body.now }
{
    match kind {
        RecordKind::LinearRail => Record::LinearRail {
            lowest: word(body, 0),
            step: word(body, 4),
            count: body[8],
        },
        RecordKind::TableRail => Record::TableRail { levels: body },
        RecordKind::DividerClock => Record::DividerClock {
            parent: word(body, 0),
            count: body[4],
        },
        RecordKind::TreeClock => Record::TreeClock {
            divisors: body[0],
            parents: &body[1..],
        },
        RecordKind::Window => Record::Rule(Rule::Window {
            rail: body[0],
            floor: word(body, 1),
            ceiling: word(body, 5),
        }),
        RecordKind::Spread => Record::Rule(Rule::Spread {
            rail: body[0],
            other: body[1],
            most: word(body, 2),
        }),
        RecordKind::Step => Record::Rule(Rule::Step {
            rail: body[0],
            most: word(body, 1),
        }),
        RecordKind::Need => Record::Rule(Rule::Need {
            clock: body[0],
            above: word(body, 1),
            rail: body[5],
            least: word(body, 6),
        }),
        RecordKind::Cap => Record::Rule(Rule::Cap {
            clock: body[0],
            most: word(body, 1),
        }),
    }
}
