// The selector register of a supplied device: its present code and the tally of writes asked for.
ghost use Rattle.std.specs.Prelude.{◌≡◌, ◌^◌, ◌<◌, if◌then◌else◌, nat_lt};
ghost use Rattle.device.specs.Device.{counted_on};
ghost use Rattle.device.specs.declared.answers.Answer.TheVariants.{Done, NoSuchWrite};

use super::Code;
use super::answers::Answer;

#[derive(Clone, Copy, Debug, PartialEq, Eq)]
pub struct Register {
    code: Code,
    tally: u64,
    ghost counted: { tally < 2 ^ 64 },
}

impl Register {
    // A register at code 0, with no write counted.
    pub fn new() -> Register
        ensures code { result.code ≡ 0 }
        ensures tally { result.tally ≡ 0 }
    {
        Register { code: 0, tally: 0 }
    }

    pub fn code(&self) -> Code
        ensures { result ≡ self.now.code }
    {
        self.code
    }

    pub fn tally(&self) -> u64
        ensures { result ≡ self.now.tally }
    {
        self.tally
    }

    // Puts the code in and counts the write.
    pub fn put(&mut self, code: Code)
        ensures code { self.new.code ≡ code }
        ensures tally { self.new.tally ≡ counted_on self.old.tally }
    {
        *self = Register {
            code,
            tally: self.tally.saturating_add(1),
        };
    }

    // Puts the code in without a write: the tally stays.
    pub fn set(&mut self, code: Code)
        ensures code { self.new.code ≡ code }
        ensures tally { self.new.tally ≡ self.old.tally }
    {
        *self = Register {
            code,
            tally: self.tally,
        };
    }

    // Answers a write of a code: done and counted where there is such a write, else nothing changes. Whether there is one is
    // the device's word, for any code.
    pub fn write(&mut self, exists: bool, code: Code) -> Answer
        ensures answer { result ≡ (if exists then Done else NoSuchWrite) }
        ensures code { self.new.code ≡ (if exists then code else self.old.code) }
        ensures tally { self.new.tally ≡ (if exists then counted_on self.old.tally else self.old.tally) }
    {
        if !exists {
            return Answer::NoSuchWrite;
        }
        self.put(code);
        Answer::Done
    }

    // Puts in a code that is below the count, without a write; any other is answered no, and changes nothing.
    pub fn set_below(&mut self, count: Code, code: Code) -> bool
        ensures has { result ≡ nat_lt code count }
        ensures code { self.new.code ≡ (if nat_lt code count then code else self.old.code) }
        ensures tally { self.new.tally ≡ self.old.tally }
    {
        let has = code < count;
        if has {
            self.set(code);
        }
        has
    }
}
