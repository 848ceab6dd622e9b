// Banks of one part: any device, a regulator or a clock.

#![tactic(auto)]

ghost use Rattle.bank.specs.Banks.{one_part};
ghost use Rattle.std.specs.Prelude.{◌≡◌};
ghost use Rattle.std.proofs.Common.{rules};

use bank::Bank;
use device::{Answer, Code, Device, Kind};

// Any device, as part 0.
#[derive(Drop)]
pub struct OnePart<D: Device> {
    device: D,
}

impl<D: Device> OnePart<D> {
    pub fn new(device: D) -> OnePart<D>
        ensures { result.device ≡ device }
    {
        OnePart { device }
    }
}

impl<D: Device> Bank for OnePart<D> {
    ghost model = { λ b. one_part (D.kind b.device) (D.model b.device) };

    ghost sound = { Prim.search rules };

    fn parts(&self) -> u8 {
        1
    }

    fn kind(&self, part: u8) -> Option<Kind> {
        (part == 0).then(|| self.device.kind())
    }

    fn count(&self, part: u8) -> Code {
        if part == 0 { self.device.count() } else { 0 }
    }

    fn level(&self, part: u8, code: Code) -> u32 {
        if part == 0 {
            self.device.level(code)
        } else {
            0
        }
    }

    fn linked(&self, part: u8, from: Code, to: Code) -> bool {
        part == 0 && self.device.linked(from, to)
    }

    fn code(&self, part: u8) -> Code {
        if part == 0 { self.device.code() } else { 0 }
    }

    fn tally(&self, part: u8) -> u64 {
        if part == 0 { self.device.tally() } else { 0 }
    }

    fn write(&mut self, part: u8, code: Code) -> Answer {
        if part == 0 {
            self.device.write(code)
        } else {
            Answer::NoSuchWrite
        }
    }
}
