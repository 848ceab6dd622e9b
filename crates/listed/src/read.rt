// The listed bank, read from a table.
ghost use Rattle.std.specs.Prelude.{◌≡◌, MatchResult};
ghost use Rattle.listing.specs.Listed.{lists_of};
ghost use Rattle.listing.specs.Lists.{listing as listed_by};
ghost use Rattle.table.specs.Answered.{SentBack};
ghost use Rattle.listed.specs.Figured.{bank_of};
ghost use Rattle.listed.specs.Listing.{bank_from, listed_model, CameFrom};

use super::Listed;
use answer::Fault;
use listing::Listing;
use std::alloc::Global;
use table::Rule;

impl Listed {
    // The bank of what a table lists, and its rules. No `From`: it hands out two values, each with its clauses.
    pub fn from_listing(listing: Listing) -> (Listed, Vec<Rule>)
        ensures bank { listed_model result.0 ≡ bank_from listing.parts.items }
        ensures fresh { listed_model result.0 ≡ bank_of (lists_of listing).parts }
        ensures rules { result.1 ≡ listing.rules }
    {
        let (parts, rules) = listing.into_lists();
        (Listed { parts }, rules)
    }

    // The bank that the bytes of a table list, every part at code 0 with no write counted, and the table's rules; or the
    // table's first fault.
    pub fn read(heap: Global, table: &[u8]) -> Result<(Listed, Vec<Rule>), Fault>
        ensures { MatchResult result (λ x. CameFrom table.now (listed_model x.0) x.1.items) (λ f. SentBack (listed_by table.now) f) }
    {
        let listing = Listing::read(heap, table)?;
        Ok(Listed::from_listing(listing))
    }
}
