// The quotient of a rate by a divisor.
ghost use Rattle.std.specs.Prelude.{◌≡◌, ◌+◌, ◌*◌, ◌<◌, ◌≤◌};
ghost use Rattle.device.specs.Figures.{rounded_up};

// The least number that is no less than a ÷ b.
pub(crate) fn rounded_up(a: u32, b: u32) -> u32
    requires { 0 < b }
    ensures quotient { result ≡ rounded_up a b }
    ensures least { (a ≤ result * b) × (result * b < a + b) }
{
    a.div_ceil(b)
}
