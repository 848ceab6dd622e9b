// Banks: lists of parts, each a device of a kind. Everything above a device sees a bank.

#![tactic(auto)]

ghost use Rattle.std.specs.Prelude.{◌≡◌};
ghost use Rattle.bank.specs.Banks.{BankModel, Sound, Written};

use device::{Answer, Code, Kind};

pub mod kinds;
pub mod states;

// A bank shows no part past this many.
pub const MOST_SHOWN: u8 = 32;

// Of an absent part or code the questions tell 0 or no, so that a caller need not ask first whether it is there.
pub trait Bank {
    // What the bank means.
    ghost model: { Self → BankModel };

    // How many parts there are.
    fn parts(&self) -> u8
        ensures { result ≡ (model self.now).parts };

    // The kind of a part, none of an absent part.
    fn kind(&self, part: u8) -> Option<Kind>
        ensures { result ≡ (model self.now).kind part };

    // How many codes a part has, 0 for an absent part.
    fn count(&self, part: u8) -> Code
        ensures { result ≡ ((model self.now).device part).count };

    // The level of a part's code in µV or kHz, 0 for an absent part or code.
    fn level(&self, part: u8, code: Code) -> u32
        ensures { result ≡ ((model self.now).device part).level code };

    // Whether one write joins the two codes of a part: a part and two codes, and no struct of them, which would have no method.
    fn linked(&self, part: u8, from: Code, to: Code) -> bool
        ensures { result ≡ ((model self.now).device part).linked from to };

    // The present code of a part, 0 for an absent part.
    fn code(&self, part: u8) -> Code
        ensures { result ≡ ((model self.now).device part).code };

    // How many writes to a part were asked for, at most 2^64 - 1.
    fn tally(&self, part: u8) -> u64
        ensures { result ≡ ((model self.now).device part).tally };

    // Asks for a write of a code to a part.
    fn write(&mut self, part: u8, code: Code) -> Answer
        ensures { Written (model self.old) part code result (model self.new) };

    ghost sound: { (x : Self) → Sound (model x) };
}
