// Putting in what is planned, each kind of plan in its own order.
ghost use Rattle.std.specs.Prelude.{◌≡◌, [], ◌∷◌};
ghost use Rattle.record.specs.Fields.{digits};
ghost use Rattle.book.specs.Layout.{balance_at};
ghost use Rattle.book.specs.Edits.{edit};
ghost use Rattle.plans.specs.Plans.{edits_of, relinking};
ghost use Rattle.transactions.specs.Held.{held};
ghost use Rattle.changes.specs.Steps.{Puts};

use crate::putting::{put_amount, put_cell, put_index};
use book::{Chain, TOTAL, balance_at};
use device::Device;
use plans::{Issue, Payment, Plan, Relink};
use transactions::{Store, StoreFault, Token};

// The total, and the balance.
fn put_issue<D: Device>(
    store: &mut Store<D>,
    token: &Token,
    issue: &Issue,
) -> Result<(), StoreFault>
    ensures done { Puts token.now.number 2 (edit 0 (digits 8 issue.now.total) ∷ edit (balance_at issue.now.account) (digits 8 issue.now.balance) ∷ []) (held store.old) result (held store.new) }
    ensures device { store.new.device ≡ store.old.device }
{
    put_amount(store, token, TOTAL, issue.total)?;
    put_amount(store, token, balance_at(issue.account), issue.balance)
}

// The index, the cell and the head of the free chain.
fn put_relink<D: Device>(
    store: &mut Store<D>,
    token: &Token,
    relink: &Relink,
) -> Result<(), StoreFault>
    ensures done { Puts token.now.number 3 (relinking relink.now) (held store.old) result (held store.new) }
    ensures device { store.new.device ≡ store.old.device }
{
    let Relink {
        link,
        to,
        number,
        next,
        kind,
        ref content,
        free,
    } = *relink;
    put_index(store, token, link, to)?;
    put_cell(store, token, number, next, kind, content)?;
    put_index(store, token, Chain::Free.head(), free)
}

// The two balances.
fn put_balances<D: Device>(
    store: &mut Store<D>,
    token: &Token,
    payment: &Payment,
) -> Result<(), StoreFault>
    ensures done { Puts token.now.number 2 (edit (balance_at payment.now.payer) (digits 8 payment.now.left) ∷ edit (balance_at payment.now.payee) (digits 8 payment.now.grown) ∷ []) (held store.old) result (held store.new) }
    ensures device { store.new.device ≡ store.old.device }
{
    put_amount(store, token, balance_at(payment.payer), payment.left)?;
    put_amount(store, token, balance_at(payment.payee), payment.grown)
}

// The two balances, and the entry.
fn put_payment<D: Device>(
    store: &mut Store<D>,
    token: &Token,
    payment: &Payment,
) -> Result<(), StoreFault>
    ensures done { Puts token.now.number 5 (edit (balance_at payment.now.payer) (digits 8 payment.now.left) ∷ edit (balance_at payment.now.payee) (digits 8 payment.now.grown) ∷ relinking payment.now.entry) (held store.old) result (held store.new) }
    ensures device { store.new.device ≡ store.old.device }
{
    put_balances(store, token, payment)?;
    put_relink(store, token, &payment.entry)
}

// Puts in all that is planned.
pub(crate) fn put_plan<D: Device>(
    store: &mut Store<D>,
    token: &Token,
    plan: &Plan,
) -> Result<(), StoreFault>
    ensures done { Puts token.now.number 5 (edits_of plan.now) (held store.old) result (held store.new) }
    ensures device { store.new.device ≡ store.old.device }
{
    match plan {
        Plan::Issue(issue) => put_issue(store, token, issue),
        Plan::Payment(payment) => put_payment(store, token, payment),
        Plan::Relink(relink) => put_relink(store, token, relink),
    }
}
