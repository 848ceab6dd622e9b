// One clock by itself, with a cap on its rate, as a graph: its states are its codes.

#![tactic(auto)]

ghost use Rattle.std.specs.Prelude.{◌≡◌, nat_le, nat_lt};
ghost use Rattle.capped.specs.Capped.{clock_graph, under_cap};
ghost use Rattle.std.proofs.Common.{arith};
ghost use Rattle.std.proofs.lemmas.Bool.{and_parts, ltb-true};
ghost use Rattle.search.proofs.Guarded.{guarded};

use answer::State;
use device::Clock;
use search::Graph;

#[derive(Drop)]
pub struct CappedClock<C: Clock> {
    clock: C,
    // The highest lawful rate in kHz.
    cap: u32,
}

impl<C: Clock> CappedClock<C> {
    pub fn new(clock: C, cap: u32) -> CappedClock<C>
        ensures { (result.clock ≡ clock) × (result.«cap» ≡ «cap») }
    {
        CappedClock { clock, cap }
    }
}

impl<C: Clock> Graph for CappedClock<C> {
    ghost model = { λ g. clock_graph (C.model g.clock) g.«cap» };

    ghost meaning = { λ x.
        let d = C.model x.clock in
        let sound = C.sound x.clock in
        guarded d.count (under_cap d x.«cap») d.linked (omega (arith, sound.few))
        (λ s h. ltb-true s d.count (and_parts (nat_lt s d.count) (nat_le (d.level s) x.«cap») h).0)
        sound.symmetric sound.different };

    ghost few = { λ x. omega (arith, (C.sound x.clock).few) };

    fn states(&self) -> usize {
        usize::from(self.clock.count())
    }

    fn lawful(&self, state: State) -> bool {
        state < self.clock.count() && self.clock.level(state) <= self.cap
    }

    fn joined(&self, from: State, to: State) -> bool {
        self.clock.linked(from, to) && self.lawful(from) && self.lawful(to)
    }
}
