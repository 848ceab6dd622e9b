// A reader of a table's records, one after the other.
ghost use Rattle.std.specs.Prelude.{◌≤◌, length};

pub mod next;
pub mod start;

#[derive(Drop)]
pub struct Reader<'a> {
    table: &'a [u8],
    // The cursor: where the next record begins. It is told as a record's offset, which the rest of a slice does not know.
    at: usize,
    // How many records were read.
    number: usize,
    ghost inside: { at ≤ length table.now },
    ghost fewer: { number ≤ at },
}
