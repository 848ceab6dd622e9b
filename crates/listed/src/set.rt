// The listed bank put on a state.
ghost use Rattle.std.specs.Prelude.{◌≡◌, ◌≤◌, MatchResult};
ghost use Rattle.answer.specs.Faults.{table_fault};
ghost use Rattle.answer.specs.declared.refusal.Refusal.TheVariants.{NoSuchState};
ghost use Rattle.bank.specs.States.{spans as spanned};
ghost use Rattle.listed.specs.Listing.{listed_model, Put, SetTo};

use super::Listed;
use answer::{Fault, Refusal, State};
use bank::Bank;
use bank::states::product;
use device::{Device, Supplied};
use table::MOST_PARTS;

impl Listed {
    // The number of states of the bank by itself.
    fn spans(&self) -> usize
        ensures { result ≡ spanned (listed_model self.now) }
    {
        if (1..=MOST_PARTS).contains(&self.parts.len()) {
            product(self).unwrap_or(0)
        } else {
            0
        }
    }

    // Puts each part on its code of a state.
    fn put(&mut self, state: State)
        ensures { Put (listed_model self.old) state (listed_model self.new) }
    {
        let mut rest = state;
        for part in self.parts.iter_mut() {
            let count = part.count();
            let _ = part.set(rest % count);
            rest /= count;
        }
    }

    // Puts the bank on a state without a write: the tallies stay. A state that there is not is 9, and changes nothing.
    pub fn set(&mut self, state: State) -> Result<(), Fault>
        ensures { MatchResult result (λ _. SetTo (listed_model self.old) state (listed_model self.new)) (λ f. (spanned (listed_model self.old) ≤ state) × (f ≡ table_fault NoSuchState 0) × (self.new.parts ≡ self.old.parts)) }
    {
        if usize::from(state) >= self.spans() {
            return Err(Fault::table(Refusal::NoSuchState, 0));
        }
        self.put(state);
        Ok(())
    }
}
