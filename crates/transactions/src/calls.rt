// The calls that write, over the device and the state. Each asks that the log lies on the device and what the page table
// says: a store is off while it writes, and its type says so only of one that is on.
ghost use Rattle.std.specs.Prelude.{◌≡◌, true, ◌≢◌, [], ◌++◌, length, None};
ghost use Rattle.device.specs.Trace.{Tries};
ghost use Rattle.image.specs.Calls.{declared};
ghost use Rattle.transactions.specs.Calls.{Flushes, Commits, writing};
ghost use Rattle.transactions.specs.Pages.{TableStands};
ghost use Rattle.transactions.specs.Rows.{first_fit, commit_rows};
ghost use Rattle.transactions.specs.State.{OnLog, LiesOn, spooled, own};
ghost use Rattle.transactions.specs.Steps.{PartsAnswer, PiecesAnswer};

use crate::fault::StoreFault;
use crate::state::State;
use crate::writing::{write_pieces, write_spool};
use device::{Device, DeviceFault};

// Writes all that waits, and settles it.
pub(crate) fn flush_out<D: Device>(device: &mut D, state: &State) -> Result<(), DeviceFault>
    requires { OnLog state.now (D.Device.disk device.old) }
    ensures { Tries (D.Device.disk device.old) (writing state.now (spooled state.now)) result (D.Device.disk device.new) }
{
    write_spool(device, &state.log, &state.spool)?;
    device.barrier()
}

// Writes all that waits and then the pieces of what is declared, and settles them.
fn commit_out<D: Device>(device: &mut D, state: &State) -> Result<(), DeviceFault>
    requires passes { first_fit (commit_rows state.now (length (own state.now)) true) ≡ None }
    requires lies { OnLog state.now (D.Device.disk device.old) }
    ensures { Tries (D.Device.disk device.old) (writing state.now (spooled state.now ++ own state.now)) result (D.Device.disk device.new) }
{
    write_spool(device, &state.log, &state.spool)?;
    let last = state.written_to();
    write_pieces(device, &state.log, last, &state.image)?;
    device.barrier()
}

// Writes the spool; an empty one writes nothing.
pub(crate) fn flush_store<D: Device>(device: &mut D, state: &mut State) -> Result<usize, StoreFault>
    requires lies { LiesOn state.old (D.Device.disk device.old) }
    requires table { TableStands state.old (D.Device.disk device.old) }
    ensures flushes { Flushes state.old (D.Device.disk device.old) result state.new (D.Device.disk device.new) }
    ensures table { TableStands state.new (D.Device.disk device.new) }
{
    state.awake()?;
    if state.spool.is_empty() {
        return Ok(0);
    }
    state.on = false;
    flush_out(device, state)?;
    Ok(state.flushed())
}

// Commits so many pieces with flush.
fn commit_flushed<D: Device>(
    device: &mut D,
    state: &mut State,
    records: usize,
) -> Result<(u64, usize), StoreFault>
    requires own { records ≡ length (own state.old) }
    requires passes { first_fit (commit_rows state.old records true) ≡ None }
    requires some { declared state.old.image ≢ [] }
    requires lies { OnLog state.old (D.Device.disk device.old) }
    requires on { state.old.on ≡ true }
    requires table { TableStands state.old (D.Device.disk device.old) }
    ensures answer { PartsAnswer state.old (D.Device.disk device.old) true result state.new (D.Device.disk device.new) }
    ensures table { TableStands state.new (D.Device.disk device.new) }
{
    state.on = false;
    commit_out(device, state)?;
    Ok(state.committed(records))
}

// Commits the pieces of what is declared, where there is room for them; else the transaction is undone.
fn commit_pieces<D: Device>(
    device: &mut D,
    state: &mut State,
    flush: bool,
) -> Result<(u64, usize), StoreFault>
    requires some { declared state.old.image ≢ [] }
    requires on { state.old.on ≡ true }
    requires lies { OnLog state.old (D.Device.disk device.old) }
    requires table { TableStands state.old (D.Device.disk device.old) }
    ensures answer { PiecesAnswer state.old (D.Device.disk device.old) flush result state.new (D.Device.disk device.new) }
    ensures table { TableStands state.new (D.Device.disk device.new) }
{
    let records = state.image.piece_count();
    if let Err(fault) = state.may_commit(records, flush) {
        state.undo();
        return Err(fault);
    }
    if flush {
        commit_flushed(device, state, records)
    } else {
        Ok(state.spooled_up(records))
    }
}

// Ends the transaction with this number.
pub(crate) fn commit_store<D: Device>(
    device: &mut D,
    state: &mut State,
    number: u64,
    flush: bool,
) -> Result<(u64, usize), StoreFault>
    requires lies { LiesOn state.old (D.Device.disk device.old) }
    requires table { TableStands state.old (D.Device.disk device.old) }
    ensures commits { Commits state.old (D.Device.disk device.old) number flush result state.new (D.Device.disk device.new) }
    ensures table { TableStands state.new (D.Device.disk device.new) }
{
    state.shown(number)?;
    if state.image.is_clean() {
        state.busy = false;
        return Ok((state.log.ordinal, 0));
    }
    commit_pieces(device, state, flush)
}
