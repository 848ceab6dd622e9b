// What every layer answers with: refusals, the layers that refuse, faults, and the type of a state number.

#![tactic(auto)]

ghost use Rattle.std.specs.Prelude.{◌≡◌};
ghost use Rattle.answer.specs.Answers.{state_number};

pub mod fault;
pub mod layer;
pub mod refusal;

pub use fault::Fault;
pub use layer::Layer;
pub use refusal::Refusal;

// The number of a board's state.
pub type State = u16;

// What stands outside for no state: outside, a state is two bytes.
pub const NONE: State = 65_535;

// The number of a state as it is told outside: 65,535 where there is none.
pub fn state_number(state: Option<State>) -> State
    ensures { result ≡ state_number state }
{
    state.unwrap_or(NONE)
}

// What stands outside for the part of a fault that names no part: outside, a part is one byte.
pub const NO_PART: u8 = 255;
