// The linear rail: level = lowest + code × step.
ghost use Rattle.std.specs.Prelude.{◌≡◌, refl};
ghost use Rattle.device.specs.Device.{Written, Willing};
ghost use Rattle.device.specs.Figures.{kind_of, linear, Made};
ghost use Rattle.rails.specs.Supplied.{linear_figures, linear_model};
ghost use Rattle.rails.specs.Sounds.{linear_sound};

use super::LinearRail;
use answer::{Fault, Refusal};
use device::devices::any_two;
use device::limits::is_linear;
use device::register::Register;
use device::{Answer, Code, Device, Kind, Regulator, Supplied};

impl LinearRail {
    // A rail at code 0, or 4 where a figure or a level is out of its range.
    pub fn new(lowest: u32, step: u32, count: Code) -> Result<LinearRail, Fault>
        ensures { Made linear_figures linear_model (linear lowest step count) result }
    {
        if !is_linear(lowest, step, count) {
            return Err(Fault::table(Refusal::OutOfRange, 0));
        }
        Ok(LinearRail {
            lowest,
            step,
            count,
            register: Register::new(),
        })
    }
}

impl Device for LinearRail {
    ghost model = { linear_model };

    ghost kind = { λ d. kind_of (linear_figures d) };

    ghost sound = { linear_sound };

    ghost free = { λ _ _ _ _. refl };

    fn kind(&self) -> Kind {
        Kind::Rail
    }

    fn count(&self) -> Code {
        self.count
    }

    fn level(&self, code: Code) -> u32 {
        if code < self.count {
            self.lowest + u32::from(code) * self.step
        } else {
            0
        }
    }

    fn linked(&self, from: Code, to: Code) -> bool {
        any_two(self.count(), from, to)
    }

    fn code(&self) -> Code {
        self.register.code()
    }

    fn tally(&self) -> u64 {
        self.register.tally()
    }

    // As in each kind: which writes there are is its own, what a write does is the register's. One struct over the four kinds
    // would save these lines, and each definition that names a part would take what the struct's bound brings.
    fn write(&mut self, code: Code) -> Answer
        ensures kind { kind_of (linear_figures self.new) ≡ kind_of (linear_figures self.old) }
        ensures written { Written (linear_model self.old) code result (linear_model self.new) }
        ensures willing { Willing (linear_model self.old) code result }
    {
        let exists = self.linked(self.code(), code);
        self.register.write(exists, code)
    }
}

impl Regulator for LinearRail {
    ghost rail = { λ _. refl };
}

impl Supplied for LinearRail {
    // As `write`: how many codes there are is the kind's own, the rest is the register's.
    fn set(&mut self, code: Code) -> bool {
        let count = self.count();
        self.register.set_below(count, code)
    }
}
