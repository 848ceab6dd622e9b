// The inspection of a bank under rules.
ghost use Rattle.std.specs.Prelude.{◌≡◌};
ghost use Rattle.std.specs.List.{list_all};
ghost use Rattle.table.specs.Names.{names_ok};
ghost use Rattle.board.specs.Layouts.{layout_of, verdict_of};

use answer::Refusal;
use bank::Bank;
use bank::kinds::fits_rule;
use bank::states::product;
use table::{MOST_PARTS, MOST_RULES, Rule};

// Whether each rule names parts that are there, of the right kind, and no rail twice.
fn all_named<B: Bank>(bank: &B, rules: &[Rule]) -> bool
    ensures { result ≡ list_all (names_ok (B.model bank.now).kind) rules.now }
{
    rules.iter().all(|rule| fits_rule(bank, rule))
}

// The number of states, or the first defect: no part, too many parts, rules or states, a rule that names no fitting part.
// The bank and the rules by themselves: a board is made with what is judged here.
pub(crate) fn judge<B: Bank>(bank: &B, rules: &[Rule]) -> Result<usize, Refusal>
    ensures { result ≡ verdict_of (layout_of (B.model bank.now) rules.now) }
{
    let parts = usize::from(bank.parts());
    if parts == 0 {
        return Err(Refusal::NoPart);
    }
    if parts > MOST_PARTS || rules.len() > MOST_RULES {
        return Err(Refusal::TooMany);
    }
    let states = product(bank).ok_or(Refusal::TooMany)?;
    if !all_named(bank, rules) {
        return Err(Refusal::WrongPart);
    }
    Ok(states)
}
