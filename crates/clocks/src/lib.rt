// The supplied clocks. Each answers 'done' at every write there is. The facts that a kind keeps stand in its type.

#![tactic(auto)]

ghost use Rattle.std.specs.Prelude.{ℕ, ◌*◌, ◌<◌, ◌≤◌, vec_len, slice_index};

use device::Code;
use device::register::Register;

pub mod divider;
mod quotient;
pub mod tree;

// A clock that divides its parent's rate by the code plus one, rounded up.
#[derive(Drop)]
pub struct DividerClock {
    parent: u32,
    count: Code,
    register: Register,
    ghost some: { 1 ≤ count },
    ghost few: { count ≤ 64 },
    ghost low: { 1 ≤ parent },
    ghost high: { parent ≤ 5000000 },
    ghost within: { register.code < count },
}

// A clock with a choice of parents and of divisors. Code = parent number × number of divisors + k, where
// the divisor is k + 1.
#[derive(Drop)]
pub struct TreeClock {
    divisors: Code,
    parents: Vec<u32>,
    register: Register,
    ghost fewest: { 1 ≤ divisors },
    ghost most: { divisors ≤ 8 },
    ghost some: { 1 ≤ vec_len parents },
    ghost few: { vec_len parents ≤ 8 },
    ghost low: { (k : ℕ) → k < vec_len parents → 1 ≤ slice_index parents.items k },
    ghost high: { (k : ℕ) → k < vec_len parents → slice_index parents.items k ≤ 5000000 },
    ghost within: { register.code < vec_len parents * divisors },
}
