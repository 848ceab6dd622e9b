// A write to a board.
ghost use Rattle.std.specs.Prelude.{◌≡◌};
ghost use Rattle.bank.specs.Banks.{Written};
ghost use Rattle.board.specs.Moves.{Moved, OneDigit};

use super::Board;
use bank::Bank;
use device::{Answer, Code};

impl<B: Bank> Board<B> {
    // Asks the bank for a write of a code to a part. Where it leads from the present state to a joined one, the board
    // then stands at one of the two, whatever the answer, and so lawful. (A part and a code, and no struct of the two: it would
    // have no method.)
    pub fn write(&mut self, part: u8, code: Code) -> Answer
        ensures written { Written (B.model self.old.bank) part code result (B.model self.new.bank) }
        ensures rules { self.new.rules ≡ self.old.rules }
        ensures digit { OneDigit (B.model self.old.bank) self.old.rules.items part (B.model self.new.bank) }
        ensures moved { Moved (B.model self.old.bank) self.old.rules.items part code result (B.model self.new.bank) }
    {
        self.bank.write(part, code)
    }
}
