// The calls that change the book, over the store. Each is planned by a look at the memory, and then made.
ghost use Rattle.std.specs.Prelude.{◌≡◌, true};
ghost use Rattle.plans.specs.Plans.{edits_of};
ghost use Rattle.ledger.specs.Calls.{Issues, Moves, Visits, Enrols, Drops, Collects};
ghost use Rattle.transactions.specs.Held.{held};
ghost use Rattle.ledger.specs.Sound.{Sound, on_store};
ghost use Rattle.ledger.specs.Steps.{ChangesTo};

use crate::looking::look;
use book::{Entry, LedgerFault};
use changes::perform;
use device::Device;
use plans::{Plan, plan_collect, plan_drop, plan_enrol, plan_issue, plan_move, plan_visit};
use transactions::Store;

// Makes the change that was planned, and answers its ordinal. That the ledger is on was seen when it was planned.
fn change<D: Device>(store: &mut Store<D>, plan: &Plan, flush: bool) -> Result<u64, LedgerFault>
    requires on { store.old.state.on ≡ true }
    requires sound { Sound true store.old.state }
    ensures { ChangesTo (held store.old) (edits_of plan.now) flush result (held store.new) }
{
    let (ordinal, _) = perform(store, plan, flush)?;
    Ok(ordinal)
}

pub(crate) fn issue<D: Device>(
    store: &mut Store<D>,
    fit: bool,
    account: u16,
    amount: u64,
    flush: bool,
) -> Result<u64, LedgerFault>
    requires { Sound fit store.old.state }
    ensures issues { Issues account amount flush (on_store fit (held store.old)) result (on_store fit (held store.new)) }
    ensures sound { Sound fit store.new.state }
{
    let plan = plan_issue(look(store, fit)?, account, amount)?;
    change(store, &plan, flush)
}

pub(crate) fn transfer<D: Device>(
    store: &mut Store<D>,
    fit: bool,
    payer: u16,
    payee: u16,
    amount: u64,
    flush: bool,
) -> Result<u64, LedgerFault>
    requires { Sound fit store.old.state }
    ensures moves { Moves payer payee amount flush (on_store fit (held store.old)) result (on_store fit (held store.new)) }
    ensures sound { Sound fit store.new.state }
{
    let plan = plan_move(look(store, fit)?, payer, payee, amount)?;
    change(store, &plan, flush)
}

pub(crate) fn visit<D: Device>(
    store: &mut Store<D>,
    fit: bool,
    id: &[u8; 8],
    guard: u16,
    flush: bool,
) -> Result<u64, LedgerFault>
    requires { Sound fit store.old.state }
    ensures visits { Visits id.now guard flush (on_store fit (held store.old)) result (on_store fit (held store.new)) }
    ensures sound { Sound fit store.new.state }
{
    let plan = plan_visit(look(store, fit)?, id, guard)?;
    change(store, &plan, flush)
}

pub(crate) fn enrol<D: Device>(
    store: &mut Store<D>,
    fit: bool,
    id: &[u8; 8],
    account: u16,
    flush: bool,
) -> Result<u64, LedgerFault>
    requires { Sound fit store.old.state }
    ensures enrols { Enrols id.now account flush (on_store fit (held store.old)) result (on_store fit (held store.new)) }
    ensures sound { Sound fit store.new.state }
{
    let plan = plan_enrol(look(store, fit)?, id, account)?;
    change(store, &plan, flush)
}

pub(crate) fn drop_tag<D: Device>(
    store: &mut Store<D>,
    fit: bool,
    id: &[u8; 8],
    flush: bool,
) -> Result<u64, LedgerFault>
    requires { Sound fit store.old.state }
    ensures drops { Drops id.now flush (on_store fit (held store.old)) result (on_store fit (held store.new)) }
    ensures sound { Sound fit store.new.state }
{
    let plan = plan_drop(look(store, fit)?, id)?;
    change(store, &plan, flush)
}

pub(crate) fn collect<D: Device>(
    store: &mut Store<D>,
    fit: bool,
    account: u16,
    flush: bool,
) -> Result<(u64, Entry), LedgerFault>
    requires { Sound fit store.old.state }
    ensures collects { Collects account flush (on_store fit (held store.old)) result (on_store fit (held store.new)) }
    ensures sound { Sound fit store.new.state }
{
    let (plan, entry) = plan_collect(look(store, fit)?, account)?;
    let ordinal = change(store, &plan, flush)?;
    Ok((ordinal, entry))
}
