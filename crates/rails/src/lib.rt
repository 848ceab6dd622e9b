// The supplied rails. Each answers 'done' at every write there is. The facts that a kind keeps stand in its type.

#![tactic(auto)]

ghost use Rattle.std.specs.Prelude.{ℕ, ◌+◌, ◌-◌, ◌*◌, ◌<◌, ◌≤◌, vec_len, slice_index};

use device::Code;
use device::register::Register;

pub mod linear;
pub mod listed;

// A rail with a lowest level and a step: the level of a code is that many steps above the lowest.
#[derive(Drop)]
pub struct LinearRail {
    lowest: u32,
    step: u32,
    count: Code,
    register: Register,
    ghost some: { 1 ≤ count },
    ghost few: { count ≤ 64 },
    ghost low: { 1 ≤ lowest },
    ghost high: { lowest + (count - 1) * step ≤ 5000000 },
    ghost within: { register.code < count },
}

// A rail with a list of levels, in any order, equal ones allowed: 1 to 64 of them, each from 1 to 5,000,000 µV.
#[derive(Drop)]
pub struct TableRail {
    levels: Vec<u32>,
    register: Register,
    ghost some: { 1 ≤ vec_len levels },
    ghost few: { vec_len levels ≤ 64 },
    ghost low: { (k : ℕ) → k < vec_len levels → 1 ≤ slice_index levels.items k },
    ghost high: { (k : ℕ) → k < vec_len levels → slice_index levels.items k ≤ 5000000 },
    ghost within: { register.code < vec_len levels },
}
