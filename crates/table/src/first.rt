// The record at the front of some bytes, and the checks of one record in their order.
ghost use Rattle.std.specs.Prelude.{◌+◌, Some};
ghost use Rattle.table.specs.Meaning.{First, Framed};

use super::kind::RecordKind;
use super::range::in_range;
use super::record::{Record, decode};
use answer::Refusal;

// The record of this kind at the front, with its size: a length that the kind has, then a body that is
// there, then figures in range.
fn framed<'a>(kind: RecordKind, size: usize, rest: &'a [u8]) -> Result<(Record<'a>, usize), Refusal>
    ensures { Framed kind size rest.now result }
{
    if size < 2 || !kind.holds(size - 2) {
        return Err(Refusal::WrongLength);
    }
    if rest.len() < 2 + size {
        return Err(Refusal::Truncated);
    }
    let record = decode(kind, &rest[4..2 + size]);
    if in_range(&record) {
        Ok((record, 2 + size))
    } else {
        Err(Refusal::OutOfRange)
    }
}

// The record at the front of the bytes with its size, none where there are no bytes.
pub(crate) fn first<'a>(rest: &'a [u8]) -> Result<Option<(Record<'a>, usize)>, Refusal>
    ensures { First rest.now result }
{
    if rest.is_empty() {
        return Ok(None);
    }
    let &[size_low, size_high, kind_low, kind_high, ..] = rest else {
        return Err(Refusal::Truncated);
    };
    let kind = RecordKind::try_from(u16::from_le_bytes([kind_low, kind_high]))?;
    let size = u16::from_le_bytes([size_low, size_high]);
    framed(kind, usize::from(size), rest).map(Some)
}
