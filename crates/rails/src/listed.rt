// The table rail: a list has the level of each code.
ghost use Rattle.std.specs.Prelude.{◌≡◌, refl};
ghost use Rattle.device.specs.Device.{Written, Willing};
ghost use Rattle.device.specs.Figures.{kind_of, listed, Made};
ghost use Rattle.rails.specs.Supplied.{table_figures, table_model};
ghost use Rattle.rails.specs.Sounds.{table_sound};

use super::TableRail;
use answer::{Fault, Refusal};
use device::devices::any_two;
use device::limits::are_levels;
use device::register::Register;
use device::{Answer, Code, Device, Kind, MOST_CODES, Regulator, Supplied};

impl TableRail {
    // A rail at code 0, or 3 for a list of a wrong length, else 4 for a level out of its range.
    pub fn new(levels: Vec<u32>) -> Result<TableRail, Fault>
        ensures { Made table_figures table_model (listed levels.items) result }
    {
        if !(1..=usize::from(MOST_CODES)).contains(&levels.len()) {
            return Err(Fault::table(Refusal::WrongLength, 0));
        }
        if !are_levels(&levels) {
            return Err(Fault::table(Refusal::OutOfRange, 0));
        }
        Ok(TableRail {
            levels,
            register: Register::new(),
        })
    }
}

impl Device for TableRail {
    ghost model = { table_model };

    ghost kind = { λ d. kind_of (table_figures d) };

    ghost sound = { table_sound };

    ghost free = { λ _ _ _ _. refl };

    fn kind(&self) -> Kind {
        Kind::Rail
    }

    fn count(&self) -> Code {
        self.levels.len() as Code
    }

    fn level(&self, code: Code) -> u32 {
        self.levels.get(usize::from(code)).copied().unwrap_or(0)
    }

    fn linked(&self, from: Code, to: Code) -> bool {
        any_two(self.count(), from, to)
    }

    fn code(&self) -> Code {
        self.register.code()
    }

    fn tally(&self) -> u64 {
        self.register.tally()
    }

    // As in each kind: which writes there are is its own, what a write does is the register's. One struct over the four kinds
    // would save these lines, and each definition that names a part would take what the struct's bound brings.
    fn write(&mut self, code: Code) -> Answer
        ensures kind { kind_of (table_figures self.new) ≡ kind_of (table_figures self.old) }
        ensures written { Written (table_model self.old) code result (table_model self.new) }
        ensures willing { Willing (table_model self.old) code result }
    {
        let exists = self.linked(self.code(), code);
        self.register.write(exists, code)
    }
}

impl Regulator for TableRail {
    ghost rail = { λ _. refl };
}

impl Supplied for TableRail {
    // As `write`: how many codes there are is the kind's own, the rest is the register's.
    fn set(&mut self, code: Code) -> bool {
        let count = self.count();
        self.register.set_below(count, code)
    }
}
