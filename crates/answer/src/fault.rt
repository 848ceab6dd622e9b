// A fault: what a call that is sent back tells.
ghost use Rattle.std.specs.Prelude.{◌≡◌};
ghost use Rattle.answer.specs.Faults.{table_fault, memory_fault, part_number};

use super::NO_PART;
use super::layer::Layer;
use super::refusal::Refusal;
use std::alloc::{AllocError, AllocFailed};

#[derive(Clone, Copy, Debug, PartialEq, Eq)]
pub struct Fault {
    pub refusal: Refusal,
    pub layer: Layer,
    // The part that was written to, if there is one.
    pub part: Option<u8>,
    // The record or the write that the fault is about, or 0.
    pub place: usize,
}

impl Fault {
    // A fault of the table layer, at a record's number, or at 0 where there is no record.
    pub fn table(refusal: Refusal, place: usize) -> Fault
        ensures { result ≡ table_fault refusal place }
    {
        Fault {
            refusal,
            layer: Layer::Table,
            part: None,
            place,
        }
    }

    // The number of the part as it is told outside: 255 where the fault names no part.
    pub fn part_number(&self) -> u8
        ensures { result ≡ part_number self.now.part }
    {
        self.part.unwrap_or(NO_PART)
    }

    // Want of memory.
    pub fn memory() -> Fault
        ensures { result ≡ memory_fault }
    {
        Fault::table(Refusal::NoMemory, 0)
    }
}

impl From<AllocError> for Fault {
    ghost from_gives = { λ _ r. r ≡ memory_fault };

    fn from(_e: AllocError) -> Fault {
        Self::memory()
    }
}

impl<T: Drop> From<AllocFailed<T>> for Fault {
    ghost from_gives = { λ _ r. r ≡ memory_fault };

    fn from(_e: AllocFailed<T>) -> Fault {
        Fault::memory()
    }
}
