// A reader at the front of a table, and how far it has come.
ghost use Rattle.std.specs.Prelude.{◌≡◌};

use super::Reader;

impl<'a> Reader<'a> {
    // A reader at the front of a table.
    pub fn new(table: &'a [u8]) -> Reader<'a>
        ensures bytes { result.table.now ≡ table.now }
        ensures cursor { result.at ≡ 0 }
        ensures number { result.number ≡ 0 }
    {
        Reader {
            table,
            at: 0,
            number: 0,
        }
    }

    // How many records were read.
    pub fn number(&self) -> usize
        ensures { result ≡ self.now.number }
    {
        self.number
    }
}
