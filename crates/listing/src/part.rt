// A part of a board: one of the supplied devices. A table has these kinds and no other, so a question is a `match`; a function
// may not hand out a `dyn` that it makes, and a box for each part would have to be allocated.
ghost use Rattle.std.specs.Prelude.{◌≡◌};
ghost use Rattle.device.specs.Device.{Written, Willing};
ghost use Rattle.device.specs.Figures.{kind_of};
ghost use Rattle.listing.specs.Parts.{part_figures, part_model};
ghost use Rattle.listing.specs.Sounds.{part_sound, rail_free};

use clocks::{DividerClock, TreeClock};
use device::{Answer, Code, Device, Kind, Supplied};
use rails::{LinearRail, TableRail};

#[derive(Drop)]
pub enum Part {
    Linear(LinearRail),
    Listed(TableRail),
    Divider(DividerClock),
    Tree(TreeClock),
}

impl Device for Part {
    ghost model = { part_model };

    ghost kind = { λ p. kind_of (part_figures p) };

    ghost sound = { part_sound };

    ghost free = { rail_free };

    fn kind(&self) -> Kind {
        match self {
            Part::Linear(_) | Part::Listed(_) => Kind::Rail,
            Part::Divider(_) | Part::Tree(_) => Kind::Clock,
        }
    }

    fn count(&self) -> Code {
        match self {
            Part::Linear(rail) => rail.count(),
            Part::Listed(rail) => rail.count(),
            Part::Divider(clock) => clock.count(),
            Part::Tree(clock) => clock.count(),
        }
    }

    fn level(&self, code: Code) -> u32 {
        match self {
            Part::Linear(rail) => rail.level(code),
            Part::Listed(rail) => rail.level(code),
            Part::Divider(clock) => clock.level(code),
            Part::Tree(clock) => clock.level(code),
        }
    }

    fn linked(&self, from: Code, to: Code) -> bool {
        match self {
            Part::Linear(rail) => rail.linked(from, to),
            Part::Listed(rail) => rail.linked(from, to),
            Part::Divider(clock) => clock.linked(from, to),
            Part::Tree(clock) => clock.linked(from, to),
        }
    }

    fn code(&self) -> Code {
        match self {
            Part::Linear(rail) => rail.code(),
            Part::Listed(rail) => rail.code(),
            Part::Divider(clock) => clock.code(),
            Part::Tree(clock) => clock.code(),
        }
    }

    fn tally(&self) -> u64 {
        match self {
            Part::Linear(rail) => rail.tally(),
            Part::Listed(rail) => rail.tally(),
            Part::Divider(clock) => clock.tally(),
            Part::Tree(clock) => clock.tally(),
        }
    }

    // It is done wherever there is such a write.
    fn write(&mut self, code: Code) -> Answer
        ensures kind { kind_of (part_figures self.new) ≡ kind_of (part_figures self.old) }
        ensures written { Written (part_model self.old) code result (part_model self.new) }
        ensures willing { Willing (part_model self.old) code result }
    {
        match self {
            Part::Linear(rail) => rail.write(code),
            Part::Listed(rail) => rail.write(code),
            Part::Divider(clock) => clock.write(code),
            Part::Tree(clock) => clock.write(code),
        }
    }
}

impl Supplied for Part {
    fn set(&mut self, code: Code) -> bool {
        match self {
            Part::Linear(rail) => rail.set(code),
            Part::Listed(rail) => rail.set(code),
            Part::Divider(clock) => clock.set(code),
            Part::Tree(clock) => clock.set(code),
        }
    }
}
