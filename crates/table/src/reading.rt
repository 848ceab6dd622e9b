// All records of a table.
ghost use Rattle.std.specs.Prelude.{map, MatchResult};
ghost use Rattle.table.specs.Answered.{RecordsRead, Exactly, OnlyMemory, SentBack, placed_record};
ghost use Rattle.table.specs.Tables.{records_of};

use super::reader::Reader;
use super::record::Placed;
use answer::Fault;
use std::alloc::Global;

// The records of a table in their order, each with its number and its offset, or the first fault. A table is
// accepted exactly when it is the encoding of a list of records in range, and then just these are answered.
pub fn records<'a>(heap: Global, table: &'a [u8]) -> Result<Vec<Placed<'a>>, Fault>
    ensures read { MatchResult result (λ v. RecordsRead table.now v.items) (λ f. SentBack (records_of table.now) f) }
    ensures exact { MatchResult result (λ v. Exactly table.now (map placed_record v.items)) (λ f. OnlyMemory table.now f) }
{
    let mut reader = Reader::new(table);
    let mut all = Vec::new(heap);
    'records: while let Some(one) = reader.next()? {
        all.push(one)?;
    }
    Ok(all)
}
