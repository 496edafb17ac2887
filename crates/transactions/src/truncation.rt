// Truncation: dirty pages go home, and the log begins anew. That it lies on the device is asked, as in the calls,
// and that there are serials left, which a test of the state has answered.
ghost use Rattle.std.specs.Prelude.{◌≡◌, ◌+◌, ◌^◌, ◌<◌, ◌≤◌, true, length};
ghost use Rattle.arrayvec.specs.ArrayVec.{array_vec_len};
ghost use Rattle.device.specs.Trace.{Tries};
ghost use Rattle.durability.specs.Promises.{marking};
ghost use Rattle.transactions.specs.Pages.{members, Tabulates, Writable, TableStands};
ghost use Rattle.transactions.specs.State.{OnLog, LiesOn};
ghost use Rattle.transactions.specs.Truncation.{flushing, covering, going_home, covered_to, truncating, PagesAnswer, Truncates};

use crate::calls::flush_out;
use crate::fault::StoreFault;
use crate::homes::{write_homes, write_pages};
use crate::pages::PageSet;
use crate::state::State;
use device::{Device, DeviceFault};
use record::{Head, Record};
use recovery::write_record;

// Writes and settles what waits; where nothing waits, does nothing.
fn flush_waiting<D: Device>(device: &mut D, state: &State) -> Result<(), DeviceFault>
    requires { OnLog state.now (D.Device.disk device.old) }
    ensures { Tries (D.Device.disk device.old) (flushing state.now) result (D.Device.disk device.new) }
{
    if state.spool.is_empty() {
        return Ok(());
    }
    flush_out(device, state)
}

// Writes page records of these pages after what waited, and settles them.
fn cover<D: Device>(device: &mut D, state: &State, due: PageSet) -> Result<(), DeviceFault>
    requires bounded { state.now.log.last + array_vec_len state.now.spool + length (members due.bits) < 2 ^ 63 }
    requires lies { OnLog state.now (D.Device.disk device.old) }
    ensures { Tries (D.Device.disk device.old) (covering state.now (members due.bits)) result (D.Device.disk device.new) }
{
    write_pages(
        device,
        &state.log,
        state.written_to(),
        &state.image.memory,
        due,
    )?;
    device.barrier()
}

// Writes these pages home, and settles them.
fn go_home<D: Device>(device: &mut D, state: &State, pages: PageSet) -> Result<(), DeviceFault>
    requires lies { OnLog state.now (D.Device.disk device.old) }
    ensures { Tries (D.Device.disk device.old) (going_home state.now (members pages.bits)) result (D.Device.disk device.new) }
{
    write_homes(device, state.log.places, &state.image.memory, pages)?;
    device.barrier()
}

// Writes the mark at which the log begins anew after so many page records, and settles it.
fn mark_anew<D: Device>(device: &mut D, state: &State, due: usize) -> Result<(), DeviceFault>
    requires few { due ≤ 64 }
    requires bounded { state.now.log.last + array_vec_len state.now.spool + 65 < 2 ^ 63 }
    requires lies { OnLog state.now (D.Device.disk device.old) }
    ensures { Tries (D.Device.disk device.old) (marking state.now.log.places (covered_to state.now due) state.now.log.ordinal) result (D.Device.disk device.new) }
{
    let serial = state.written_to() + due as u64 + 1;
    let head = Head {
        serial,
        low: serial,
        ordinal: state.log.ordinal,
    };
    write_record(device, state.log.places, &Record::mark(head))?;
    device.barrier()
}

// All that a truncation writes: what waits, records of the pages that are due, homes of the dirty ones, and the mark.
fn truncate_out<D: Device>(
    device: &mut D,
    state: &State,
    due: PageSet,
    dirty: PageSet,
) -> Result<(), DeviceFault>
    requires bounded { state.now.log.last + array_vec_len state.now.spool + 65 < 2 ^ 63 }
    requires lies { OnLog state.now (D.Device.disk device.old) }
    ensures { Tries (D.Device.disk device.old) (truncating state.now (members due.bits) (members dirty.bits)) result (D.Device.disk device.new) }
{
    flush_waiting(device, state)?;
    cover(device, state, due)?;
    go_home(device, state, dirty)?;
    mark_anew(device, state, due.len())
}

// Truncates, where there is log for that. The table says which pages are dirty, so that nothing is read.
fn truncate_pages<D: Device>(device: &mut D, state: &mut State) -> Result<usize, StoreFault>
    requires bounded { state.old.log.last + array_vec_len state.old.spool + 65 < 2 ^ 63 }
    requires lies { OnLog state.old (D.Device.disk device.old) }
    requires writable { Writable state.old }
    requires table { Tabulates state.old (D.Device.disk device.old).shows }
    ensures answer { PagesAnswer state.old (D.Device.disk device.old) result state.new (D.Device.disk device.new) }
    ensures table { TableStands state.new (D.Device.disk device.new) }
{
    let due = PageSet::due(&state.pages);
    state.has_log(due.len())?;
    let dirty = PageSet::dirty(&state.pages);
    // What waits names a page, so that nothing waits where no page is named.
    if dirty.is_empty() {
        return Ok(0);
    }
    state.on = false;
    truncate_out(device, state, due, dirty)?;
    state.truncated(due.len());
    Ok(dirty.len())
}

// Writes dirty pages home and begins the log anew, where there are serials and log for that.
pub(crate) fn truncate_store<D: Device>(
    device: &mut D,
    state: &mut State,
) -> Result<usize, StoreFault>
    requires lies { LiesOn state.old (D.Device.disk device.old) }
    requires table { TableStands state.old (D.Device.disk device.old) }
    ensures truncates { Truncates state.old (D.Device.disk device.old) result state.new (D.Device.disk device.new) }
    ensures table { TableStands state.new (D.Device.disk device.new) }
{
    state.may_begin()?;
    state.has_serials()?;
    truncate_pages(device, state)
}
