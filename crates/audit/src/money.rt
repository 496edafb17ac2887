// What is issued, and the sum of the balances.
ghost use Rattle.std.specs.Prelude.{◌≡◌, ℕ, ◌+◌, ◌^◌, ◌<◌, ◌≤◌, MatchOption, slice_index, sum};
ghost use Rattle.record.specs.Fields.{digits};
ghost use Rattle.book.specs.Layout.{byte_in, balance_at, Stands};
ghost use Rattle.audit.specs.Judging.{MoneyJudged};

use crate::bytes::long;
use book::{ACCOUNTS, TOTAL, TOTALS, balance_at};
use transactions::MEMORY;

// Whether what is issued is the sum of the balances.
pub(crate) fn money_adds_up(memory: &[u8; MEMORY]) -> bool
    ensures { MoneyJudged (byte_in memory.now) result }
{
    total(&balances(memory)) == Some(long(memory, TOTAL))
}

// The balances of all accounts.
fn balances(memory: &[u8; MEMORY]) -> [u64; ACCOUNTS as usize]
    ensures { (i : ℕ) → i < 64 → Stands (byte_in memory.now) (balance_at (i + 1)) (digits 8 (slice_index result i)) }
{
    let mut balances = [0; ACCOUNTS as usize];
    for (i, balance) in balances.iter_mut().enumerate() {
        *balance = long(memory, balance_at(i as u16 + 1));
    }
    balances
}

// Their sum, unless it is more than may be issued.
fn total(balances: &[u64]) -> Option<u64>
    ensures { MatchOption result (2 ^ 63 ≤ sum balances.now) (λ total. (total ≡ sum balances.now) × (total < 2 ^ 63)) }
{
    let mut total: u64 = 0;
    for balance in balances {
        total = total.checked_add(*balance).filter(|total| *total < TOTALS)?;
    }
    Some(total)
}
