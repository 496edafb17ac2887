// The calls of the store that a ledger passes on.
ghost use Rattle.transactions.specs.Held.{held};
ghost use Rattle.ledger.specs.Sound.{Sound, on_store};
ghost use Rattle.ledger.specs.Calls.{Flushes, Truncates};

use crate::looking::look;
use book::LedgerFault;
use device::Device;
use transactions::Store;

pub(crate) fn flush<D: Device>(store: &mut Store<D>, fit: bool) -> Result<usize, LedgerFault>
    requires { Sound fit store.old.state }
    ensures flushes { Flushes (on_store fit (held store.old)) result (on_store fit (held store.new)) }
    ensures sound { Sound fit store.new.state }
{
    look(store, fit)?;
    Ok(store.flush()?)
}

pub(crate) fn truncate<D: Device>(store: &mut Store<D>, fit: bool) -> Result<usize, LedgerFault>
    requires { Sound fit store.old.state }
    ensures truncates { Truncates (on_store fit (held store.old)) result (on_store fit (held store.new)) }
    ensures sound { Sound fit store.new.state }
{
    look(store, fit)?;
    Ok(store.truncate()?)
}
