// New ledgers, and those that a device holds.
ghost use Rattle.std.specs.Result.{is_ok};
ghost use Rattle.transactions.specs.Held.{held};
ghost use Rattle.ledger.specs.Sound.{Sound, on_store};
ghost use Rattle.ledger.specs.Calls.{Makes, Opens};
ghost use Rattle.ledger.specs.Steps.{Links, Checks};

use audit::is_ledger;
use book::LedgerFault;
use changes::link_cells;
use device::Device;
use transactions::{Store, StoreFault};

// Links the cells in the store, if it was formatted.
fn link<D: Device>(
    store: &mut Store<D>,
    formatted: Result<(), StoreFault>,
) -> Result<(), LedgerFault>
    ensures { Links formatted (held store.old) result (held store.new) }
{
    formatted?;
    link_cells(store)?;
    Ok(())
}

// Formats a store and links its cells.
pub(crate) fn make<D: Device>(device: D) -> (Store<D>, Result<(), LedgerFault>)
    ensures makes { Makes (D.Device.disk device) result.1 (on_store (is_ok result.1) (held result.0)) }
    ensures sound { Sound (is_ok result.1) result.0.state }
{
    let (mut store, formatted) = Store::format(device);
    let answer = link(&mut store, formatted);
    (store, answer)
}

// Whether the store was opened on a ledger.
fn check<D: Device>(
    store: &Store<D>,
    opened: Result<(u64, usize), StoreFault>,
) -> Result<(u64, usize), LedgerFault>
    ensures { Checks opened store.now.state result }
{
    let found = opened?;
    if !is_ledger(store.memory()?) {
        return Err(LedgerFault::NotLedger);
    }
    Ok(found)
}

// Opens a store, and sees whether it holds a ledger.
pub(crate) fn open<D: Device>(device: D) -> (Store<D>, Result<(u64, usize), LedgerFault>)
    ensures opens { Opens (D.Device.disk device) result.1 (on_store (is_ok result.1) (held result.0)) }
    ensures sound { Sound (is_ok result.1) result.0.state }
{
    let (store, opened) = Store::open(device);
    let answer = check(&store, opened);
    (store, answer)
}
