// The bytes that nothing has a place in.
ghost use Rattle.std.specs.Prelude.{ℕ, ◌↔◌, ◌+◌, IsTrue, replicate};
ghost use Rattle.book.specs.Layout.{byte_in, balance_at, Stands};
ghost use Rattle.book.specs.Book.{Zeros, IsAccount};

use crate::bytes::is_blank;
use book::{ACCOUNTS, balance_at};
use transactions::MEMORY;

// Whether they are zeros.
pub(crate) fn zeros_stand(memory: &[u8; MEMORY]) -> bool
    ensures { IsTrue result ↔ Zeros (byte_in memory.now) }
{
    is_blank(memory, 10, 6) && accounts_end(memory) && is_blank(memory, 5872, 272)
}

// Whether there are zeros behind each account.
fn accounts_end(memory: &[u8; MEMORY]) -> bool
    ensures { IsTrue result ↔ ((a : ℕ) → IsAccount a → Stands (byte_in memory.now) (balance_at a + 10) (replicate 6 0)) }
{
    for account in 1..=ACCOUNTS {
        if !is_blank(memory, balance_at(account) + 10, 6) {
            return false;
        }
    }
    true
}
