// The bytes and numbers that stand in a memory.
ghost use Rattle.std.specs.Prelude.{◌≡◌, ◌+◌, ◌≤◌, ◌↔◌, IsTrue, replicate};
ghost use Rattle.record.specs.Fields.{digits};
ghost use Rattle.book.specs.Layout.{byte_in, Stands};
ghost use Rattle.audit.specs.Owners.{index_at};

use transactions::MEMORY;

// The bytes from `at` on, as many as are asked for.
pub(crate) fn part<const N: usize>(memory: &[u8; MEMORY], at: usize) -> [u8; N]
    requires { at + N ≤ MEMORY }
    ensures { Stands (byte_in memory.now) at result }
{
    memory[at..at + N].try_into().unwrap()
}

// The number in the 8 bytes from `at` on.
pub(crate) fn long(memory: &[u8; MEMORY], at: usize) -> u64
    requires { at + 8 ≤ MEMORY }
    ensures { Stands (byte_in memory.now) at (digits 8 result) }
{
    u64::from_le_bytes(part(memory, at))
}

// The index in the 2 bytes from `at` on.
pub(crate) fn index(memory: &[u8; MEMORY], at: usize) -> u16
    requires { at + 2 ≤ MEMORY }
    ensures { result ≡ index_at (byte_in memory.now) at }
{
    u16::from_le_bytes(part(memory, at))
}

// Whether so many zeros stand there.
pub(crate) fn is_blank(memory: &[u8; MEMORY], at: usize, size: usize) -> bool
    requires { at + size ≤ MEMORY }
    ensures { IsTrue result ↔ Stands (byte_in memory.now) at (replicate size 0) }
{
    memory[at..at + size].iter().all(|byte| *byte == 0)
}
