// The states of a bank, by number.
ghost use Rattle.std.specs.Prelude.{◌≡◌, if◌then◌else◌, Some, None, nat_le};
ghost use Rattle.bank.specs.States.{weight, counts};

use super::Bank;
use table::MOST_STATES;

// The product of the counts, or none past the most states that a board may have: it goes no further than the part
// where it passes that.
pub fn product<B: Bank>(bank: &B) -> Option<usize>
    ensures { let m = B.model bank.now in let n = weight (counts m) m.parts in result ≡ (if nat_le n 4096 then Some n else None) }
{
    let mut states = 1;
    // A loop: a `try_fold`, which was proved too, has the same two lines in a closure and is no plainer.
    'parts: for part in 0..bank.parts() {
        states *= usize::from(bank.count(part));
        if states > MOST_STATES {
            return None;
        }
    }
    Some(states)
}
