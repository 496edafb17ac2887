// Reading numbers in the memory.
ghost use Rattle.std.specs.Prelude.{◌≡◌, ◌+◌, ◌≤◌, take, drop};
ghost use Rattle.record.specs.Fields.{field};
ghost use Rattle.book.specs.Layout.{balance_at};

use book::balance_at;
use image::MEMORY;

// The bytes from `at` on, as many as the number has that they are read as.
pub(crate) fn part<const N: usize>(memory: &[u8; MEMORY], at: usize) -> [u8; N]
    requires { at + N ≤ 6144 }
    ensures { result ≡ take N (drop at memory.now) }
{
    memory[at..at + N].try_into().unwrap()
}

// The index of a cell, or 0 for none.
pub(crate) fn index(memory: &[u8; MEMORY], at: usize) -> u16
    requires { at + 2 ≤ 6144 }
    ensures { result ≡ field at 2 memory.now }
{
    u16::from_le_bytes(part(memory, at))
}

// An amount.
pub(crate) fn amount(memory: &[u8; MEMORY], at: usize) -> u64
    requires { at + 8 ≤ 6144 }
    ensures { result ≡ field at 8 memory.now }
{
    u64::from_le_bytes(part(memory, at))
}

// What an account has.
pub(crate) fn balance(memory: &[u8; MEMORY], account: u16) -> u64
    requires { account ≤ 64 }
    ensures { result ≡ field (balance_at account) 8 memory.now }
{
    amount(memory, balance_at(account))
}
