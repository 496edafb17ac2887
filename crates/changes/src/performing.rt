// Changes of the book, each by one transaction of a store.
ghost use Rattle.std.specs.Prelude.{◌≡◌, true};
ghost use Rattle.book.specs.Edits.{make_edits};
ghost use Rattle.plans.specs.Plans.{edits_of};
ghost use Rattle.transactions.specs.Held.{held};
ghost use Rattle.changes.specs.Steps.{edits_in, Puts, Finishes, Performs};

use crate::linking::put_links;
use crate::planned::put_plan;
use device::Device;
use plans::Plan;
use transactions::{Store, StoreFault, Token};

// What a transaction puts in: a planned change, or the links of a new ledger's cells.
#[derive(Clone, Copy)]
pub(crate) enum Work<'a> {
    Plan(&'a Plan),
    Links,
}

fn put_work<D: Device>(store: &mut Store<D>, token: &Token, work: Work) -> Result<(), StoreFault>
    ensures done { Puts token.now.number 5 (edits_in work.entry) (held store.old) result (held store.new) }
    ensures device { store.new.device ≡ store.old.device }
{
    match work {
        Work::Plan(plan) => put_plan(store, token, plan),
        Work::Links => put_links(store, token),
    }
}

// Commits where all was put in; where the store refused some of it, the transaction is undone.
fn finish<D: Device>(
    store: &mut Store<D>,
    token: Token,
    put: Result<(), StoreFault>,
    flush: bool,
) -> Result<(u64, usize), StoreFault>
    ensures { Finishes put token.number flush (held store.old) result (held store.new) }
{
    if let Err(fault) = put {
        store.abort(token)?;
        return Err(fault);
    }
    store.commit(token, flush)
}

// Begins a transaction, puts that in, and commits it.
fn transact<D: Device>(
    store: &mut Store<D>,
    work: Work,
    flush: bool,
) -> Result<(u64, usize), StoreFault>
    ensures { Performs (edits_in work.entry) flush (held store.old) result (held store.new) }
{
    let token = store.begin()?;
    let put = put_work(store, &token, work);
    finish(store, token, put, flush)
}

/// Makes a planned change by one transaction: its bytes are declared, put in and committed. They lie in the memory, in
/// less runs than there is room for, so the store refuses none of them.
pub fn perform<D: Device>(
    store: &mut Store<D>,
    plan: &Plan,
    flush: bool,
) -> Result<(u64, usize), StoreFault>
    ensures { Performs (edits_of plan.now) flush (held store.old) result (held store.new) }
{
    transact(store, Work::Plan(plan), flush)
}

/// Links the cells of a new ledger by one transaction, with flush.
pub fn link_cells<D: Device>(store: &mut Store<D>) -> Result<(u64, usize), StoreFault>
    ensures { Performs make_edits true (held store.old) result (held store.new) }
{
    transact(store, Work::Links, true)
}
