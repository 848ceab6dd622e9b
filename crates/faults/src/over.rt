// The faulting bank: any bank, the outcomes of its next writes, and tallies of its own.
ghost use Rattle.std.specs.Prelude.{◌≡◌, ◌<◌, replicate, vec_len, MatchResult};
ghost use Rattle.answer.specs.Faults.{table_fault};
ghost use Rattle.answer.specs.declared.refusal.Refusal.TheVariants.{OutOfRange};
ghost use Rattle.bank.specs.Banks.{Written};
ghost use Rattle.faults.specs.Faulty.{faulty};
ghost use Rattle.faults.specs.Outcomes.{Used, doubted};
ghost use Rattle.faults.specs.Soundness.{faulty_sound};

use super::MOST_OUTCOMES;
use super::outcome::Outcome;
use super::tallies::Tallies;
use answer::{Fault, Refusal};
use bank::Bank;
use device::{Answer, Code, Kind};
use std::collections::VecDeque;

#[derive(Drop)]
pub struct Faulting<B: Bank> {
    bank: B,
    // Those of the next writes, in order.
    outcomes: VecDeque<Outcome>,
    tallies: Tallies,
}

// 'Done' told as 'unsure'.
fn doubt(answer: Answer) -> Answer
    ensures { result ≡ doubted answer }
{
    match answer {
        Answer::Done => Answer::Unsure,
        told => told,
    }
}

impl<B: Bank + Drop> Faulting<B> {
    // A bank whose next writes have these outcomes, with no write counted, or 4 for more than 32 outcomes.
    pub fn new(bank: B, outcomes: Vec<Outcome>) -> Result<Faulting<B>, Fault>
        ensures { MatchResult result (λ f. (f.bank ≡ bank) × (f.outcomes.items ≡ outcomes.items) × (f.tallies.counts ≡ replicate 32 0)) (λ f. (32 < vec_len outcomes) × (f ≡ table_fault OutOfRange 0)) }
    {
        if outcomes.len() > MOST_OUTCOMES {
            return Err(Fault::table(Refusal::OutOfRange, 0));
        }
        Ok(Faulting {
            bank,
            outcomes: VecDeque::from(outcomes),
            tallies: Tallies::new(),
        })
    }
}

impl<B: Bank> Bank for Faulting<B> {
    ghost model = { λ f. faulty (B.model f.bank) f.tallies.counts };

    ghost sound = { λ x. faulty_sound (B.model x.bank) x.tallies.counts x.tallies.counted (B.sound x.bank) };

    fn parts(&self) -> u8 {
        self.bank.parts()
    }

    fn kind(&self, part: u8) -> Option<Kind> {
        self.bank.kind(part)
    }

    fn count(&self, part: u8) -> Code {
        self.bank.count(part)
    }

    fn level(&self, part: u8, code: Code) -> u32 {
        self.bank.level(part, code)
    }

    fn linked(&self, part: u8, from: Code, to: Code) -> bool {
        self.bank.linked(part, from, to)
    }

    fn code(&self, part: u8) -> Code {
        self.bank.code(part)
    }

    fn tally(&self, part: u8) -> u64 {
        if part < self.bank.parts() {
            self.tallies.of(part)
        } else {
            0
        }
    }

    // Where there is such a write, it is counted, and the next outcome says what is asked of the bank below.
    fn write(&mut self, part: u8, code: Code) -> Answer
        ensures written { Written (faulty (B.model self.old.bank) self.old.tallies.counts) part code result (faulty (B.model self.new.bank) self.new.tallies.counts) }
        ensures used { Used (B.model self.old.bank) self.old.outcomes.items part code result (B.model self.new.bank) self.new.outcomes.items }
    {
        if !self.bank.linked(part, self.bank.code(part), code) {
            return Answer::NoSuchWrite;
        }
        self.tallies.count(part);
        match self.outcomes.pop_front().unwrap_or(Outcome::Pass) {
            Outcome::Pass => self.bank.write(part, code),
            Outcome::Balk => Answer::Balked,
            Outcome::Lose => Answer::Unsure,
            Outcome::Doubt => doubt(self.bank.write(part, code)),
        }
    }
}
