// Accounts: what each has, and issuing to them.
ghost use Rattle.std.specs.Prelude.{◌≡◌, ◌+◌, ◌≤◌, [], ◌∷◌};
ghost use Rattle.book.specs.Layout.{byte_in, balance_at};
ghost use Rattle.book.specs.Book.{Book, Holds};
ghost use Rattle.book.specs.Rows.{issue_rows, balance_rows};
ghost use Rattle.book.specs.Edits.{edit, issue_edits};
ghost use Rattle.plans.specs.Plans.{Planned, Told, Grown, edits_of};
ghost use Rattle.record.specs.Fields.{digits};

use crate::checks::{check_account, check_some, check_total};
use crate::plan::{Issue, Plan};
use crate::reading::{amount as amount_in, balance};
use book::{LedgerFault, TOTAL};
use image::MEMORY;

/// The balance of an account.
pub fn balance_of(memory: &[u8; MEMORY], account: u16) -> Result<u64, LedgerFault>
    ensures { Told (balance_rows account) (byte_in memory.now) (λ b. b.balances account) result }
{
    check_account(account)?;
    Ok(balance(memory, account))
}

/// Issuing: more in an account, and in the total.
pub fn plan_issue(memory: &[u8; MEMORY], account: u16, amount: u64) -> Result<Plan, LedgerFault>
    ensures { (b : Book) → Holds (byte_in memory.now) b → Planned (issue_rows b account amount) (issue_edits b account amount) result }
{
    check_account(account)?;
    check_some(account, amount)?;
    let issued = amount_in(memory, TOTAL);
    check_total(issued, amount)?;
    let grown = grown(balance(memory, account), amount)?;
    Ok(issuing(account, issued + amount, grown))
}

// What a balance becomes. It has room for all that is issued, if the memory is a ledger's.
#[tactic(auto, using(std::proofs::lemmas::Grind::common_steps))]
pub(crate) fn grown(balance: u64, amount: u64) -> Result<u64, LedgerFault>
    ensures { Grown (balance + amount) result }
{
    balance.checked_add(amount).ok_or(LedgerFault::NotLedger)
}

// The new total, and the new balance of an account.
fn issuing(account: u16, total: u64, balance: u64) -> Plan
    requires { account ≤ 64 }
    ensures { edits_of result ≡ edit 0 (digits 8 total) ∷ edit (balance_at account) (digits 8 balance) ∷ [] }
{
    Plan::Issue(Issue {
        total,
        account,
        balance,
    })
}
