// A device, a regulator or a clock: 1 to 64 levels, one for each code, a present code, a tally of writes, and a relation
// that says which codes one write joins. Levels are in µV on a rail and in kHz on a clock.
ghost use Rattle.std.specs.Prelude.{◌≡◌, ℕ};
ghost use Rattle.device.specs.Device.{Device as DeviceModel, Sound, Written, any_two};
ghost use Rattle.device.specs.declared.kind.Kind.{Kind as PartKind};
ghost use Rattle.device.specs.declared.kind.Kind.TheVariants.{Rail, Clock};

use super::Code;
use super::answers::Answer;
use super::kind::Kind;

pub trait Device {
    // What the device means.
    ghost model: { Self → DeviceModel };

    // Whether it is a regulator of a rail or a clock.
    ghost kind: { Self → PartKind };

    fn kind(&self) -> Kind
        ensures { result ≡ kind self.now };

    // How many codes there are.
    fn count(&self) -> Code
        ensures { result ≡ (model self.now).count };

    // The level of a code, 0 for an absent one.
    fn level(&self, code: Code) -> u32
        ensures { result ≡ (model self.now).level code };

    // Whether one write joins the two codes.
    fn linked(&self, from: Code, to: Code) -> bool
        ensures { result ≡ (model self.now).linked from to };

    // The present code.
    fn code(&self) -> Code
        ensures { result ≡ (model self.now).code };

    // How many writes were asked for, at most 2^64 - 1.
    fn tally(&self) -> u64
        ensures { result ≡ (model self.now).tally };

    // Asks for a write of a code. The kind stays.
    fn write(&mut self, code: Code) -> Answer
        ensures kind { kind self.new ≡ kind self.old }
        ensures written { Written (model self.old) code result (model self.new) };

    ghost sound: { (x : Self) → Sound (model x) };

    // On a rail one write joins any two different codes.
    ghost free: { (x : Self) (a b : ℕ) → kind x ≡ Rail → (model x).linked a b ≡ any_two (model x).count a b };
}

// A regulator of a voltage rail.
pub trait Regulator: Device {
    ghost rail: { (x : Self) → Self.kind x ≡ Rail };
}

// A clock.
pub trait Clock: Device {
    ghost clock: { (x : Self) → Self.kind x ≡ Clock };
}

// Whether two codes are different and both below the number of codes: on a rail one write joins any two such.
pub fn any_two(count: Code, from: Code, to: Code) -> bool
    ensures { result ≡ any_two count from to }
{
    from < count && to < count && from != to
}
