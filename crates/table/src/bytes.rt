// Numbers in the table's bytes, the lowest byte first.
ghost use Rattle.std.specs.Prelude.{◌≡◌, ◌+◌, ◌≤◌, length, IfOk};
ghost use Rattle.table.specs.Bytes.{field, words as fours};

use std::alloc::{AllocError, Global};

// The number of four bytes at a place.
pub(crate) fn word(bytes: &[u8], at: usize) -> u32
    requires { at + 4 ≤ length bytes.now }
    ensures { result ≡ field bytes.now at 4 }
{
    u32::from_le_bytes([bytes[at], bytes[at + 1], bytes[at + 2], bytes[at + 3]])
}

// The numbers of four bytes each, as a list.
pub fn words(heap: Global, bytes: &[u8]) -> Result<Vec<u32>, AllocError>
    ensures { IfOk result (λ v. v.items ≡ fours bytes.now) }
{
    let (fours, _) = bytes.as_chunks();
    fours.iter().copied().map(u32::from_le_bytes).collect(heap)
}
