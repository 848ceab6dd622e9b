// Records taken in one by one.
ghost use Rattle.std.specs.Prelude.{◌≡◌, Ok, MatchResult};
ghost use Rattle.listing.specs.Parts.{part_figures};
ghost use Rattle.device.specs.Device.{Fresh};
ghost use Rattle.listing.specs.Parts.{part_model};
ghost use Rattle.listing.specs.Listed.{lists_of, NotAdded};
ghost use Rattle.listing.specs.Lists.{admit_part, admit_rule, kind_at};

use super::Listing;
use super::part::Part;
use answer::{Fault, Refusal};
use device::{Device, Kind};
use table::{Kinds, MOST_PARTS, MOST_RULES, MOST_STATES, Rule};

impl Kinds for Listing {
    ghost kinds = { λ l. kind_at (lists_of l).parts };

    fn kind_of(&self, part: u8) -> Option<Kind> {
        self.parts.get(usize::from(part)).map(Part::kind)
    }
}

impl Listing {
    // One part more, from the record of this number. A seventh part, or more than 4,096 states, is refused.
    pub(crate) fn add_part(&mut self, part: Part, number: usize) -> Result<(), Fault>
        requires { Fresh (part_model part) }
        ensures { MatchResult result (λ _. admit_part (lists_of self.old) (part_figures part) ≡ Ok (lists_of self.new)) (λ f. NotAdded (admit_part (lists_of self.old) (part_figures part)) number f) }
    {
        let states = self.states * usize::from(part.count());
        if self.parts.len() >= MOST_PARTS || states > MOST_STATES {
            return Err(Fault::table(Refusal::TooMany, number));
        }
        self.parts.push(part)?;
        self.states = states;
        Ok(())
    }

    // One rule more, from the record of this number. A 25th rule is refused, and one that names no listed part.
    pub(crate) fn add_rule(&mut self, rule: Rule, number: usize) -> Result<(), Fault>
        ensures { MatchResult result (λ _. admit_rule (lists_of self.old) rule ≡ Ok (lists_of self.new)) (λ f. NotAdded (admit_rule (lists_of self.old) rule) number f) }
    {
        if self.rules.len() >= MOST_RULES {
            return Err(Fault::table(Refusal::TooMany, number));
        }
        if !rule.names(self) {
            return Err(Fault::table(Refusal::WrongPart, number));
        }
        self.rules.push(rule)?;
        Ok(())
    }
}
