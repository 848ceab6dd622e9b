// The reading of a whole table.
ghost use Rattle.std.specs.Prelude.{◌≡◌, true, Ok, MatchResult};
ghost use Rattle.table.specs.Answered.{SentBack, placed_record};
ghost use Rattle.listing.specs.Listed.{lists_of, NotAdded, Read, BoardTable, OnlyFull};
ghost use Rattle.listing.specs.Lists.{nothing, admit as taken, listing as listed, product};
ghost use Rattle.table.specs.Records.{in_range};

use super::Listing;
use super::entry::{Entry, make};
use super::part::Part;
use answer::{Fault, Refusal};
use std::alloc::Global;
use table::{Placed, Reader, Rule};

impl Listing {
    // The parts, in the order of their numbers.
    pub fn parts(&self) -> &[Part]
        ensures { result.now ≡ self.now.parts.items }
    {
        self.parts.as_slice()
    }

    // The rules, in the order of the table.
    pub fn rules(&self) -> &[Rule]
        ensures { result.now ≡ self.now.rules.items }
    {
        self.rules.as_slice()
    }

    // The number of states: the product of the parts' counts.
    pub fn states(&self) -> u32
        ensures { result ≡ product (lists_of self.now).parts }
    {
        self.states as u32
    }

    // The parts and the rules, taken apart, as the library's `into_parts` does.
    pub fn into_lists(self) -> (Vec<Part>, Vec<Rule>)
        ensures { (result.0 ≡ self.parts) × (result.1 ≡ self.rules) }
    {
        let Listing {
            parts,
            rules,
            states: _,
        } = self;
        (parts, rules)
    }

    // Nothing listed yet.
    fn empty(heap: Global) -> Listing
        ensures { lists_of result ≡ nothing }
    {
        Listing {
            parts: Vec::new(heap),
            rules: Vec::new(heap),
            states: 1,
        }
    }

    // One record more.
    fn add(&mut self, heap: Global, placed: Placed<'_>) -> Result<(), Fault>
        requires { in_range (placed_record placed) ≡ true }
        ensures { MatchResult result (λ _. taken (lists_of self.old) (placed_record placed.entry) ≡ Ok (lists_of self.new)) (λ f. NotAdded (taken (lists_of self.old) (placed_record placed.entry)) placed.entry.number f) }
    {
        match make(heap, placed.record)? {
            Entry::Part(part) => self.add_part(part, placed.number),
            Entry::Rule(rule) => self.add_rule(rule, placed.number),
        }
    }

    // What a table lists, or the first fault. A table is accepted exactly when it is the encoding of records in
    // range that make the table of a board, and then just their parts and rules are listed.
    pub fn read(heap: Global, table: &[u8]) -> Result<Listing, Fault>
        ensures read { MatchResult result (λ l. Read table.now l) (λ f. SentBack (listed table.now) f) }
        ensures exact { MatchResult result (λ l. BoardTable table.now l) (λ f. OnlyFull table.now f) }
    {
        let mut reader = Reader::new(table);
        let mut listing = Listing::empty(heap);
        'records: while let Some(placed) = reader.next()? {
            listing.add(heap, placed)?;
        }
        if listing.parts.is_empty() {
            return Err(Fault::table(Refusal::NoPart, reader.number()));
        }
        Ok(listing)
    }
}
