// Making a new log on a device.
ghost use Rattle.std.specs.Prelude.{◌≡◌, ◌+◌, ◌%◌, ◌<◌, ◌≤◌, [], ◌∷◌, length};
ghost use Rattle.device.specs.Trace.{Tries, wrote, settled, restarted};
ghost use Rattle.record.specs.Entry.{entry, laid_out};
ghost use Rattle.record.specs.Good.{Fits};
ghost use Rattle.recovery.specs.Writing.{Recorded, Fitting};
ghost use Rattle.recovery.specs.Format.{zeroing, formatting, mark, first};
ghost use Rattle.recovery.specs.Opening.{Formats};

use crate::fault::RecoveryFault;
use crate::places::Places;
use device::{Device, DeviceFault, SECTOR};
use record::{Head, Record};

// Writes zeros over the first `sectors` sectors, the lowest first.
fn zero_all<D: Device>(device: &mut D, sectors: usize) -> Result<(), DeviceFault>
    requires { sectors ≤ (D.Device.disk device.old).plate.sectors }
    ensures { Tries (D.Device.disk device.old) (zeroing 0 sectors) result (D.Device.disk device.new) }
{
    // By index: the sectors of a device are no slice.
    for sector in 0..sectors {
        device.write(sector, &[0u8; SECTOR])?;
    }
    Ok(())
}

// Writes a record in its place of a log that lies on the device. A log with no places has none for it. Inlined, since
// each caller knows the kind of its record, and the other kinds then fall away.
#[inline(always)]
pub fn write_record<D: Device>(
    device: &mut D,
    places: usize,
    record: &Record,
) -> Result<(), DeviceFault>
    ensures { Recorded (D.Device.disk device.old) places (entry «record».now) result (D.Device.disk device.new) }
{
    let Some(place) = record.head().serial.checked_rem(places as u64) else {
        return Err(DeviceFault::Misaddressed(0, 0));
    };
    write_at(device, place as usize, *record)
}

// Writes a record over a sector.
#[inline(always)]
fn write_at<D: Device>(device: &mut D, sector: usize, record: Record) -> Result<(), DeviceFault>
    ensures { sector < (D.Device.disk device.old).plate.sectors → Fitting (entry «record».entry) → Tries (D.Device.disk device.old) (wrote sector (laid_out (entry «record».entry)) ∷ []) result (D.Device.disk device.new) }
{
    let mut bytes = [0u8; SECTOR];
    let _ = record::write(record, &mut bytes);
    device.write(sector, &bytes)
}

// Writes a mark in its place of the log.
fn write_mark<D: Device>(device: &mut D, places: Places, head: Head) -> Result<(), DeviceFault>
    requires { places.count + 64 ≤ (D.Device.disk device.old).plate.sectors }
    ensures { Tries (D.Device.disk device.old) (wrote (head.serial % places.count) (laid_out (mark head)) ∷ []) result (D.Device.disk device.new) }
{
    write_record(device, places.count, &Record::mark(head))
}

// Restarts the device and writes zeros over all of its sectors.
fn blank_all<D: Device>(device: &mut D, sectors: usize) -> Result<(), DeviceFault>
    requires { sectors ≤ (D.Device.disk device.old).plate.sectors }
    ensures { Tries (D.Device.disk device.old) (restarted ∷ zeroing 0 sectors) result (D.Device.disk device.new) }
{
    device.restart()?;
    zero_all(device, sectors)
}

// Settles the zeros, writes the first mark, and settles that.
fn begin_log<D: Device>(device: &mut D, places: Places) -> Result<(), DeviceFault>
    requires { places.count + 64 ≤ (D.Device.disk device.old).plate.sectors }
    ensures { Tries (D.Device.disk device.old) (settled ∷ wrote (1 % places.count) (laid_out (mark first)) ∷ settled ∷ []) result (D.Device.disk device.new) }
{
    device.barrier()?;
    let head = Head {
        serial: 1,
        low: 1,
        ordinal: 0,
    };
    write_mark(device, places, head)?;
    device.barrier()
}

// Makes a new log of so many sectors, with the homes after it: zeros everywhere, and one mark.
fn format_device<D: Device>(device: &mut D, places: Places) -> Result<(), DeviceFault>
    requires { places.count + 64 ≡ (D.Device.disk device.old).plate.sectors }
    ensures { Tries (D.Device.disk device.old) (formatting places.count) result (D.Device.disk device.new) }
{
    blank_all(device, places.sectors())?;
    begin_log(device, places)
}

// Makes a new log on the device, where it has room for one, and answers how many sectors the log has.
pub fn format_log<D: Device>(device: &mut D) -> Result<usize, RecoveryFault>
    ensures { Formats (D.Device.disk device.old) result (D.Device.disk device.new) }
{
    let places = Places::try_from(device.sectors())?;
    format_device(device, places)?;
    Ok(places.count)
}
