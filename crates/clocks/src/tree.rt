// The tree clock: code = parent number × number of divisors + k, rate = parent ÷ (k + 1), rounded up.
ghost use Rattle.std.specs.Prelude.{◌≡◌, refl};
ghost use Rattle.device.specs.Device.{Written, Willing};
ghost use Rattle.device.specs.Figures.{kind_of, tree, Made};
ghost use Rattle.device.specs.Kinds.{clock_no_rail};
ghost use Rattle.clocks.specs.Supplied.{tree_figures, tree_model};
ghost use Rattle.clocks.specs.Sounds.{tree_sound};

use super::TreeClock;
use super::quotient::rounded_up;
use answer::{Fault, Refusal};
use device::devices::any_two;
use device::limits::{are_levels, is_divisors};
use device::register::Register;
use device::{Answer, Clock, Code, Device, Kind, MOST_PARENTS, Supplied};

impl TreeClock {
    // A clock at code 0, or 3 for a list of a wrong length, else 4 for a figure out of its range.
    pub fn new(divisors: Code, parents: Vec<u32>) -> Result<TreeClock, Fault>
        ensures { Made tree_figures tree_model (tree divisors parents.items) result }
    {
        if !(1..=MOST_PARENTS).contains(&parents.len()) {
            return Err(Fault::table(Refusal::WrongLength, 0));
        }
        if !is_divisors(divisors) || !are_levels(&parents) {
            return Err(Fault::table(Refusal::OutOfRange, 0));
        }
        Ok(TreeClock {
            divisors,
            parents,
            register: Register::new(),
        })
    }
}

impl Device for TreeClock {
    ghost model = { tree_model };

    ghost kind = { λ d. kind_of (tree_figures d) };

    ghost sound = { tree_sound };

    ghost free = { λ _ _ _ e. absurd (clock_no_rail e) };

    fn kind(&self) -> Kind {
        Kind::Clock
    }

    fn count(&self) -> Code {
        self.parents.len() as Code * self.divisors
    }

    fn level(&self, code: Code) -> u32 {
        if code < self.count() {
            let parent = self.parents[usize::from(code / self.divisors)];
            rounded_up(parent, u32::from(code % self.divisors) + 1)
        } else {
            0
        }
    }

    fn linked(&self, from: Code, to: Code) -> bool {
        let k = self.divisors;
        any_two(self.count(), from, to) && (from / k == to / k || from % k == to % k)
    }

    fn code(&self) -> Code {
        self.register.code()
    }

    fn tally(&self) -> u64 {
        self.register.tally()
    }

    // As in each kind: which writes there are is its own, what a write does is the register's. One struct over the four kinds
    // would save these lines, and each definition that names a part would take what the struct's bound brings.
    fn write(&mut self, code: Code) -> Answer
        ensures kind { kind_of (tree_figures self.new) ≡ kind_of (tree_figures self.old) }
        ensures written { Written (tree_model self.old) code result (tree_model self.new) }
        ensures willing { Willing (tree_model self.old) code result }
    {
        let exists = self.linked(self.code(), code);
        self.register.write(exists, code)
    }
}

impl Clock for TreeClock {
    ghost clock = { λ _. refl };
}

impl Supplied for TreeClock {
    // As `write`: how many codes there are is the kind's own, the rest is the register's.
    fn set(&mut self, code: Code) -> bool {
        let count = self.count();
        self.register.set_below(count, code)
    }
}
