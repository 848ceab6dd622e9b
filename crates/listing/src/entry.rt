// A record made into what it lists: a part with its levels, or a rule.
ghost use Rattle.std.specs.Prelude.{◌≡◌, true, MatchResult};
ghost use Rattle.answer.specs.Faults.{memory_fault};
ghost use Rattle.listing.specs.Entries.{Is};
ghost use Rattle.table.specs.Meaning.{meant};
ghost use Rattle.table.specs.Records.{in_range};

use super::part::Part;
use answer::Fault;
use clocks::{DividerClock, TreeClock};
use device::Code;
use rails::{LinearRail, TableRail};
use std::alloc::Global;
use table::bytes::words;
use table::{Record, Rule};

// One of the two, and neither is an error: no `Result`.
#[derive(Drop)]
pub(crate) enum Entry {
    Part(Part),
    Rule(Rule),
}

// The part or the rule of a record in range; only memory can be wanting.
pub(crate) fn make(heap: Global, record: Record<'_>) -> Result<Entry, Fault>
    requires { in_range (meant «record») ≡ true }
    ensures { MatchResult result (λ e. Is e (meant «record».entry)) (λ f. f ≡ memory_fault) }
{
    let part = match record {
        Record::LinearRail {
            lowest,
            step,
            count,
        } => Part::Linear(LinearRail::new(lowest, step, Code::from(count))?),
        Record::TableRail { levels } => Part::Listed(TableRail::new(words(heap, levels)?)?),
        Record::DividerClock { parent, count } => Part::Divider(DividerClock::new(
            parent,
            Code::from(count),
        )?),
        Record::TreeClock { divisors, parents } => {
            Part::Tree(TreeClock::new(Code::from(divisors), words(heap, parents)?)?)
        }
        Record::Rule(rule) => return Ok(Entry::Rule(rule)),
    };
    Ok(Entry::Part(part))
}
