// The rules that a bank's parts fit.
ghost use Rattle.std.specs.Prelude.{◌≡◌};
ghost use Rattle.table.specs.Names.{names_ok};

use super::Bank;
use device::Kind;
use table::{Kinds, Rule};

// Any bank, seen by the kinds of its parts.
#[derive(Drop)]
struct PartKinds<'a, B: Bank> {
    bank: &'a B,
}

impl<'a, B: Bank> Kinds for PartKinds<'a, B> {
    ghost kinds = { λ k. (B.model k.bank.now).kind };

    fn kind_of(&self, part: u8) -> Option<Kind> {
        self.bank.kind(part)
    }
}

// Whether a rule names rails and clocks that the bank has, and no rail twice.
pub fn fits_rule<B: Bank>(bank: &B, rule: &Rule) -> bool
    ensures { result ≡ names_ok (B.model bank.now).kind rule.now }
{
    rule.names(&PartKinds { bank })
}
