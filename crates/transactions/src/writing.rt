// Writing records at the end of the log. A part that waits and a piece of the memory have their bytes in different
// places, and share what makes a head and writes a record; one function for both would be no plainer. That the log
// lies on the device is asked, as in the calls.
ghost use Rattle.std.specs.Prelude.{◌+◌, ◌%◌, ◌^◌, ◌<◌, ◌≤◌, [], ◌∷◌, length, if◌then◌else◌};
ghost use Rattle.arrayvec.specs.ArrayVec.{array_vec_len};
ghost use Rattle.device.specs.Trace.{Tries, wrote};
ghost use Rattle.durability.specs.Items.{appending, recorded};
ghost use Rattle.image.specs.Calls.{declared};
ghost use Rattle.image.specs.Cut.{FitsPage, cut_runs};
ghost use Rattle.record.specs.Entry.{laid_out};
ghost use Rattle.transactions.specs.Parts.{part, parts, item_of, waiting};

use crate::log::Log;
use crate::spool::{Spool, Spooled};
use device::{Device, DeviceFault};
use image::{Image, MEMORY, Piece};
use record::Record;
use recovery::write_record;

// Writes a part that waited, with this serial.
fn write_spooled<D: Device>(
    device: &mut D,
    log: &Log,
    serial: u64,
    item: &Spooled,
) -> Result<(), DeviceFault>
    requires { log.now.places ≤ (D.Device.disk device.old).plate.sectors }
    ensures { Tries (D.Device.disk device.old) (wrote (serial % log.now.places) (laid_out (recorded log.now.low serial (item_of item.now))) ∷ []) result (D.Device.disk device.new) }
{
    let record = Record::Part {
        head: log.head(serial, item.ordinal),
        page: item.page,
        offset: item.offset,
        last: item.last,
        bytes: &item.bytes[..item.size as usize],
    };
    write_record(device, log.places, &record)
}

// Writes all that waits, each part with the next serial.
pub(crate) fn write_spool<D: Device>(
    device: &mut D,
    log: &Log,
    spool: &Spool,
) -> Result<(), DeviceFault>
    requires bounded { log.now.last + array_vec_len spool.now < 2 ^ 63 }
    requires room { log.now.places ≤ (D.Device.disk device.old).plate.sectors }
    ensures { Tries (D.Device.disk device.old) (appending log.now.places log.now.low log.now.last (waiting spool.now)) result (D.Device.disk device.new) }
{
    for (i, item) in spool.iter().enumerate() {
        write_spooled(device, log, log.last + 1 + i as u64, item)?;
    }
    Ok(())
}

// Writes a piece of the memory as a part of the next transaction, with this serial.
fn write_piece<D: Device>(
    device: &mut D,
    log: &Log,
    serial: u64,
    memory: &[u8; MEMORY],
    piece: &Piece,
    last: bool,
) -> Result<(), DeviceFault>
    requires fits { FitsPage piece.now }
    requires numbered { log.now.ordinal < 2 ^ 63 }
    requires room { log.now.places ≤ (D.Device.disk device.old).plate.sectors }
    ensures { Tries (D.Device.disk device.old) (wrote (serial % log.now.places) (laid_out (recorded log.now.low serial (part (log.now.ordinal + 1) memory.now (if last then 2 else 1) piece.now))) ∷ []) result (D.Device.disk device.new) }
{
    let record = Record::Part {
        head: log.head(serial, log.ordinal + 1),
        page: piece.page() as u16,
        offset: piece.offset() as u16,
        last,
        bytes: &memory[piece.start..piece.start + piece.size],
    };
    write_record(device, log.places, &record)
}

// Writes the pieces of what is declared, each with the next serial after `last`.
pub(crate) fn write_pieces<D: Device>(
    device: &mut D,
    log: &Log,
    last: u64,
    image: &Image,
) -> Result<(), DeviceFault>
    requires bounded { last + length (cut_runs (declared image.now)) < 2 ^ 63 }
    requires numbered { log.now.ordinal < 2 ^ 63 }
    requires room { log.now.places ≤ (D.Device.disk device.old).plate.sectors }
    ensures { Tries (D.Device.disk device.old)
        (appending log.now.places log.now.low last
        (parts (log.now.ordinal + 1) image.now.memory (cut_runs (declared image.now))))
        result (D.Device.disk device.new) }
{
    let mut serial = last;
    let mut pieces = image.pieces();
    while let Some(piece) = pieces.next() {
        serial += 1;
        let last_one = pieces.is_empty();
        write_piece(device, log, serial, &image.memory, &piece, last_one)?;
    }
    Ok(())
}
