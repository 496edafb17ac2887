// Looks at the memory of a ledger, which change nothing.
ghost use Rattle.transactions.specs.Held.{held};
ghost use Rattle.ledger.specs.Sound.{on_store};
ghost use Rattle.ledger.specs.Calls.{Balances, Finds};
ghost use Rattle.ledger.specs.Steps.{Looks};

use book::LedgerFault;
use device::{Device, DeviceFault};
use plans::{balance_of, find_tag};
use transactions::{MEMORY, Store, StoreFault};

// Lends the memory of a ledger that is on.
pub(crate) fn look<D: Device>(store: &Store<D>, fit: bool) -> Result<&[u8; MEMORY], LedgerFault>
    ensures { Looks fit store.now.state result }
{
    if !fit {
        return Err(LedgerFault::Store(StoreFault::Device(DeviceFault::Power(0))));
    }
    Ok(store.memory()?)
}

pub(crate) fn balance<D: Device>(
    store: &Store<D>,
    fit: bool,
    account: u16,
) -> Result<u64, LedgerFault>
    ensures { Balances account (on_store fit (held store.now)) result }
{
    balance_of(look(store, fit)?, account)
}

pub(crate) fn find<D: Device>(
    store: &Store<D>,
    fit: bool,
    id: &[u8; 8],
) -> Result<Option<u16>, LedgerFault>
    ensures { Finds id.now (on_store fit (held store.now)) result }
{
    Ok(find_tag(look(store, fit)?, id))
}
