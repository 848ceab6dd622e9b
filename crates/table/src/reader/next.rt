// Reading on: the next record with its number and its offset.
ghost use Rattle.std.specs.Prelude.{◌≡◌};
ghost use Rattle.table.specs.Meaning.{Next};

use super::super::first::first;
use super::super::record::Placed;
use super::Reader;
use answer::Fault;

impl<'a> Reader<'a> {
    // The next record, none at the end, or the fault that it has; a fault leaves the reader where it is. No `Iterator`: at a
    // fault it would have no end.
    pub fn next(&mut self) -> Result<Option<Placed<'a>>, Fault>
        ensures bytes { self.new.table.now ≡ self.old.table.now }
        ensures read { Next self.old.table.now self.old.number self.old.at result self.new.number self.new.at }
    {
        let rest = &self.table[self.at..];
        let found = first(rest).map_err(|refusal| Fault::table(refusal, self.number))?;
        let Some((record, size)) = found else {
            return Ok(None);
        };
        let placed = Placed {
            record,
            number: self.number,
            offset: self.at,
        };
        self.at += size;
        self.number += 1;
        Ok(Some(placed))
    }
}
