// Planning payments from one account to another, and taking their entries off.
ghost use Rattle.std.specs.Prelude.{◌≡◌, ◌≤◌, ◌∷◌};
ghost use Rattle.record.specs.Fields.{field, digits};
ghost use Rattle.book.specs.Layout.{byte_in, head_at, balance_at};
ghost use Rattle.book.specs.Records.{entry_kind, entry_content};
ghost use Rattle.book.specs.Book.{Book, Holds, IsAccount};
ghost use Rattle.book.specs.Rows.{move_rows, visit_rows, collect_rows};
ghost use Rattle.book.specs.Edits.{edit, move_edits, visit_edits, collect_edits, front_of};
ghost use Rattle.plans.specs.Plans.{Planned, Collected, edits_of, pay_rows};
ghost use Rattle.plans.specs.Putting.{putting};

use crate::accounts::grown;
use crate::checks::{check_account, check_balance, check_other, check_some};
use crate::found::FreeCell;
use crate::plan::{Payment, Plan};
use crate::putting::{inserted, taking_out};
use crate::reading::balance;
use crate::tags::find_tag;
use crate::walking::{front_entry, front_free};
use book::{Chain, Entry, LedgerFault, bucket_of};
use image::MEMORY;

/// Moving: one account pays another, and an entry goes to the front of the payer's.
pub fn plan_move(
    memory: &[u8; MEMORY],
    payer: u16,
    payee: u16,
    amount: u64,
) -> Result<Plan, LedgerFault>
    ensures { (b : Book) → Holds (byte_in memory.now) b → Planned (move_rows b payer payee amount) (move_edits b payer payee amount) result }
{
    check_account(payer)?;
    check_account(payee)?;
    pay(memory, payer, payee, amount)
}

/// A visit: a tag's account pays 1 to the guard's.
pub fn plan_visit(memory: &[u8; MEMORY], id: &[u8; 8], guard: u16) -> Result<Plan, LedgerFault>
    ensures { (b : Book) → Holds (byte_in memory.now) b → Planned (visit_rows b id.now guard) (visit_edits b id.now guard) result }
{
    check_account(guard)?;
    let Some(payer) = find_tag(memory, id) else {
        return Err(LedgerFault::Unknown(bucket_of(id) as usize));
    };
    // In a ledger every tag has an account.
    check_account(payer)?;
    pay(memory, payer, guard, 1)
}

// A payment between two that are accounts.
fn pay(memory: &[u8; MEMORY], payer: u16, payee: u16, amount: u64) -> Result<Plan, LedgerFault>
    requires paying { IsAccount payer }
    requires paid { IsAccount payee }
    ensures { (b : Book) → Holds (byte_in memory.now) b → Planned (pay_rows b payer payee amount) (move_edits b payer payee amount) result }
{
    check_other(payer, payee)?;
    check_some(payer, amount)?;
    let had = balance(memory, payer);
    check_balance(had, amount)?;
    let cell = front_free(memory, payer)?;
    let grown = grown(balance(memory, payee), amount)?;
    let entry = Entry { amount, payee };
    Ok(moving(memory, &cell, payer, had - amount, grown, &entry))
}

// What the payer has left, what the payee has then, and the entry of it in this free cell.
fn moving(
    memory: &[u8; MEMORY],
    cell: &FreeCell,
    payer: u16,
    left: u64,
    grown: u64,
    entry: &Entry,
) -> Plan
    requires paying { payer ≤ 64 }
    requires paid { entry.now.payee ≤ 64 }
    ensures { edits_of result ≡ edit (balance_at payer) (digits 8 left) ∷ edit (balance_at entry.now.payee) (digits 8 grown) ∷ putting (head_at payer) (field (head_at payer) 2 memory.now) cell.now.number cell.now.next entry_kind (entry_content entry.now) }
{
    let chain = Chain::Account(payer);
    Plan::Payment(Payment {
        payer,
        left,
        payee: entry.payee,
        grown,
        entry: inserted(memory, cell, chain, entry),
    })
}

/// Collecting: the front entry of an account is taken out.
pub fn plan_collect(memory: &[u8; MEMORY], account: u16) -> Result<(Plan, Entry), LedgerFault>
    ensures { (b : Book) → Holds (byte_in memory.now) b → Collected (collect_rows b account) (collect_edits b account) (front_of (b.entries account)) result }
{
    check_account(account)?;
    let Some(found) = front_entry(memory, account) else {
        return Err(LedgerFault::NoEntry(account));
    };
    Ok((taking_out(memory, &found), found.record))
}
