// The listed bank's questions and writes.
ghost use Rattle.bank.specs.Banks.{Written, Willing};
ghost use Rattle.listed.specs.Listing.{listed_model, Shows};
ghost use Rattle.listed.specs.Soundness.{listed_sound};

use super::Listed;
use bank::Bank;
use device::{Answer, Code, Device, Kind};
use listing::Part;

impl Listed {
    // The part of this number.
    fn at(&self, part: u8) -> Option<&Part>
        ensures { Shows (listed_model self.now) part result }
    {
        self.parts.get(usize::from(part))
    }
}

impl Bank for Listed {
    ghost model = { listed_model };

    ghost sound = { λ x. listed_sound x.parts.items x.few };

    fn parts(&self) -> u8 {
        self.parts.len() as u8
    }

    fn kind(&self, part: u8) -> Option<Kind> {
        self.at(part).map(|device| device.kind())
    }

    fn count(&self, part: u8) -> Code {
        self.at(part).map_or(0, |device| device.count())
    }

    fn level(&self, part: u8, code: Code) -> u32 {
        self.at(part).map_or(0, |device| device.level(code))
    }

    fn linked(&self, part: u8, from: Code, to: Code) -> bool {
        self.at(part).is_some_and(|device| device.linked(from, to))
    }

    fn code(&self, part: u8) -> Code {
        self.at(part).map_or(0, |device| device.code())
    }

    fn tally(&self, part: u8) -> u64 {
        self.at(part).map_or(0, |device| device.tally())
    }

    fn write(&mut self, part: u8, code: Code) -> Answer
        ensures written { Written (listed_model self.old) part code result (listed_model self.new) }
        ensures willing { Willing (listed_model self.old) part code result }
    {
        // A `match`: through a `map_or` whose closure writes, what the bank then shows stays open in the proof.
        match self.parts.get_mut(usize::from(part)) {
            Some(device) => device.write(code),
            None => Answer::NoSuchWrite,
        }
    }
}
