// What `levels` prints: every code of every part with its level, and every rule.
ghost use Rattle.std.specs.Prelude.{◌≡◌, true, [], ◌∷◌, ◌++◌, map, is_err, MatchResult, OnOk};
ghost use Rattle.answer.specs.Faults.{memory_fault};
ghost use Rattle.bench.specs.Listing.{code_lines, part_lines, lines_of};
ghost use Rattle.bench.specs.declared.line.Line.TheVariants.{Rule as rule_line, Refused};
ghost use Rattle.listing.specs.Parts.{part_figures};
ghost use Rattle.listing.specs.Listed.{lists_of};
ghost use Rattle.listing.specs.Lists.{listing as listed};

use super::line::Line;
use answer::{Fault, Refusal};
use device::Device;
use listing::{Listing, Part};
use std::alloc::{AllocError, Global};

// A line for each code of a part.
fn add_codes(lines: &mut Vec<Line>, number: u8, part: &Part) -> Result<(), AllocError>
    ensures { OnOk result (lines.new.items ≡ lines.old.items ++ code_lines number (part_figures part.now)) }
{
    let kind = Some(part.kind());
    let codes = 0..part.count();
    lines.extend(codes.map(|code| Line::Level {
        kind,
        part: number,
        code,
        level: part.level(code),
    }))
}

// The lines of all parts.
fn add_parts(lines: &mut Vec<Line>, listing: &Listing) -> Result<(), AllocError>
    ensures { OnOk result (lines.new.items ≡ lines.old.items ++ part_lines 0 (lists_of listing.now).parts) }
{
    let parts = listing.parts();
    'parts: for (number, part) in parts.iter().enumerate() {
        add_codes(lines, number as u8, part)?;
    }
    Ok(())
}

// A line for each rule.
fn add_rules(lines: &mut Vec<Line>, listing: &Listing) -> Result<(), AllocError>
    ensures { OnOk result (lines.new.items ≡ lines.old.items ++ map rule_line (lists_of listing.now).rules) }
{
    lines.extend(listing.rules().iter().map(|rule| Line::Rule(*rule)))
}

// How many lines there are for a listing: one for each code of a part, and one for each rule. It has no clause: only how much
// memory is asked for depends on it.
fn room(listing: &Listing) -> usize {
    let codes = listing.parts().iter().map(|part| usize::from(part.count()));
    codes.fold(listing.rules().len(), usize::saturating_add)
}

// The one line of a refused table. Want of memory is no refusal of the table, and stays a fault.
fn refused(heap: Global, fault: Fault) -> Result<Vec<Line>, Fault>
    ensures line { MatchResult result (λ v. v.items ≡ Refused fault.refusal ∷ []) (λ f. f ≡ memory_fault) }
    ensures table { fault ≡ memory_fault → is_err result ≡ true }
{
    if fault.refusal == Refusal::NoMemory {
        return Err(Fault::memory());
    }
    Ok(vec![in heap; Line::Refused(fault.refusal)]?)
}

// The lines for a table: its parts' codes with their levels and then its rules, or its refusal alone.
// The allocator comes before the table, as in every call that allocates, here and in the library.
pub fn levels(heap: Global, table: &[u8]) -> Result<Vec<Line>, Fault>
    ensures { MatchResult result (λ v. v.items ≡ lines_of (listed table.now)) (λ f. f ≡ memory_fault) }
{
    match Listing::read(heap, table) {
        Ok(listing) => {
            let mut lines = Vec::new(heap);
            // Room for all lines at once: a list that grew part by part would at last have up to twice of it. Where it is not to be
            // had, the list grows as it can.
            let _ = lines.reserve_exact(room(&listing));
            add_parts(&mut lines, &listing)?;
            add_rules(&mut lines, &listing)?;
            Ok(lines)
        }
        Err(fault) => refused(heap, fault),
    }
}
