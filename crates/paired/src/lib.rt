// A pair of banks: the second's parts are numbered after the first's, and those past 32 are not shown.

#![tactic(auto)]

ghost use Rattle.bank.specs.Banks.{pair_of};
ghost use Rattle.std.specs.Prelude.{◌≡◌};
ghost use Rattle.paired.specs.Pairs.{pair_sound};
ghost use Rattle.paired.specs.Places.{Stands};

use bank::{Bank, MOST_SHOWN};
use device::{Answer, Code, Kind};

// Which bank of a pair has a part, and the part's number there: one of the two, and neither is an error, so no `Result`.
#[derive(Clone, Copy, Debug, PartialEq, Eq)]
enum Place {
    First(u8),
    Second(u8),
}

// Any two banks, one after the other.
#[derive(Drop)]
pub struct Pair<A: Bank, B: Bank> {
    first: A,
    second: B,
}

impl<A: Bank, B: Bank> Pair<A, B> {
    pub fn new(first: A, second: B) -> Pair<A, B>
        ensures { (result.first ≡ first) × (result.second ≡ second) }
    {
        Pair { first, second }
    }

    // Where a part stands, none past those that are shown. The two banks have two types, so each question has a `match`: a
    // `map_or` over a match of two cases is no plainer than one of three.
    fn place(&self, part: u8) -> Option<Place>
        ensures { Stands (A.model self.now.first) part result }
    {
        if part >= MOST_SHOWN {
            return None;
        }
        // One subtraction tells both: with a test beside it, a write through six nested banks took 1.5 times the instructions.
        Some(match part.checked_sub(self.first.parts()) {
            Some(at) => Place::Second(at),
            None => Place::First(part),
        })
    }
}

impl<A: Bank, B: Bank> Bank for Pair<A, B> {
    ghost model = { λ b. pair_of (A.model b.first) (B.model b.second) };

    ghost sound = { λ x. pair_sound (A.model x.first) (B.model x.second) (A.sound x.first) (B.sound x.second) };

    fn parts(&self) -> u8 {
        let all = self.first.parts() + self.second.parts();
        all.min(MOST_SHOWN)
    }

    fn kind(&self, part: u8) -> Option<Kind> {
        match self.place(part) {
            Some(Place::First(at)) => self.first.kind(at),
            Some(Place::Second(at)) => self.second.kind(at),
            None => None,
        }
    }

    fn count(&self, part: u8) -> Code {
        match self.place(part) {
            Some(Place::First(at)) => self.first.count(at),
            Some(Place::Second(at)) => self.second.count(at),
            None => 0,
        }
    }

    fn level(&self, part: u8, code: Code) -> u32 {
        match self.place(part) {
            Some(Place::First(at)) => self.first.level(at, code),
            Some(Place::Second(at)) => self.second.level(at, code),
            None => 0,
        }
    }

    fn linked(&self, part: u8, from: Code, to: Code) -> bool {
        match self.place(part) {
            Some(Place::First(at)) => self.first.linked(at, from, to),
            Some(Place::Second(at)) => self.second.linked(at, from, to),
            None => false,
        }
    }

    fn code(&self, part: u8) -> Code {
        match self.place(part) {
            Some(Place::First(at)) => self.first.code(at),
            Some(Place::Second(at)) => self.second.code(at),
            None => 0,
        }
    }

    fn tally(&self, part: u8) -> u64 {
        match self.place(part) {
            Some(Place::First(at)) => self.first.tally(at),
            Some(Place::Second(at)) => self.second.tally(at),
            None => 0,
        }
    }

    fn write(&mut self, part: u8, code: Code) -> Answer {
        match self.place(part) {
            Some(Place::First(at)) => self.first.write(at, code),
            Some(Place::Second(at)) => self.second.write(at, code),
            None => Answer::NoSuchWrite,
        }
    }
}
