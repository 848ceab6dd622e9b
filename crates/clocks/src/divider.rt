// The divider clock: rate = parent ÷ (code + 1), rounded up.
ghost use Rattle.std.specs.Prelude.{◌≡◌, refl};
ghost use Rattle.device.specs.Device.{Written, Willing};
ghost use Rattle.device.specs.Figures.{kind_of, divider, Made};
ghost use Rattle.device.specs.Kinds.{clock_no_rail};
ghost use Rattle.clocks.specs.Supplied.{divider_figures, divider_model};
ghost use Rattle.clocks.specs.Sounds.{divider_sound};

use super::DividerClock;
use super::quotient::rounded_up;
use answer::{Fault, Refusal};
use device::devices::any_two;
use device::limits::is_divider;
use device::register::Register;
use device::{Answer, Clock, Code, Device, Kind, Supplied};

impl DividerClock {
    // A clock at code 0, or 4 where a figure is out of its range.
    pub fn new(parent: u32, count: Code) -> Result<DividerClock, Fault>
        ensures { Made divider_figures divider_model (divider parent count) result }
    {
        if !is_divider(parent, count) {
            return Err(Fault::table(Refusal::OutOfRange, 0));
        }
        Ok(DividerClock {
            parent,
            count,
            register: Register::new(),
        })
    }
}

impl Device for DividerClock {
    ghost model = { divider_model };

    ghost kind = { λ d. kind_of (divider_figures d) };

    ghost sound = { divider_sound };

    ghost free = { λ _ _ _ e. absurd (clock_no_rail e) };

    fn kind(&self) -> Kind {
        Kind::Clock
    }

    fn count(&self) -> Code {
        self.count
    }

    fn level(&self, code: Code) -> u32 {
        if code < self.count {
            rounded_up(self.parent, u32::from(code) + 1)
        } else {
            0
        }
    }

    fn linked(&self, from: Code, to: Code) -> bool {
        any_two(self.count, from, to)
    }

    fn code(&self) -> Code {
        self.register.code()
    }

    fn tally(&self) -> u64 {
        self.register.tally()
    }

    // As in each kind: which writes there are is its own, what a write does is the register's. One struct over the four kinds
    // would save these lines, and each definition that names a part would take what the struct's bound brings.
    fn write(&mut self, code: Code) -> Answer
        ensures kind { kind_of (divider_figures self.new) ≡ kind_of (divider_figures self.old) }
        ensures written { Written (divider_model self.old) code result (divider_model self.new) }
        ensures willing { Willing (divider_model self.old) code result }
    {
        let exists = self.linked(self.code(), code);
        self.register.write(exists, code)
    }
}

impl Clock for DividerClock {
    ghost clock = { λ _. refl };
}

impl Supplied for DividerClock {
    // As `write`: how many codes there are is the kind's own, the rest is the register's.
    fn set(&mut self, code: Code) -> bool {
        let count = self.count();
        self.register.set_below(count, code)
    }
}
