// Writing pages: their records into the log, and the pages themselves home. That a page is below 64 is asked of one,
// and those of a set are: a type for one would be made of an index and taken apart at once.
ghost use Rattle.std.specs.Prelude.{◌≡◌, ◌+◌, ◌%◌, ◌^◌, ◌<◌, ◌≤◌, [], ◌∷◌, map, length};
ghost use Rattle.device.specs.Trace.{Tries, wrote};
ghost use Rattle.durability.specs.Items.{appending, recorded};
ghost use Rattle.durability.specs.Promises.{home_of, homing};
ghost use Rattle.record.specs.Entry.{laid_out};
ghost use Rattle.transactions.specs.Pages.{members};
ghost use Rattle.transactions.specs.Truncation.{page_item};

use crate::log::Log;
use crate::pages::PageSet;
use device::{Device, DeviceFault, SECTOR};
use image::{MEMORY, PAGE};
use record::Record;
use recovery::write_record;

// Writes the page record of a page, with this serial.
fn write_page<D: Device>(
    device: &mut D,
    log: &Log,
    serial: u64,
    memory: &[u8; MEMORY],
    page: usize,
) -> Result<(), DeviceFault>
    requires page { page < 64 }
    requires room { log.now.places ≤ (D.Device.disk device.old).plate.sectors }
    ensures { Tries (D.Device.disk device.old) (wrote (serial % log.now.places) (laid_out (recorded log.now.low serial (page_item log.now.ordinal memory.now page))) ∷ []) result (D.Device.disk device.new) }
{
    let start = page * PAGE;
    let record = Record::Page {
        head: log.head(serial, log.ordinal),
        page: page as u16,
        bytes: &memory[start..start + PAGE],
    };
    write_record(device, log.places, &record)
}

// Writes page records of these pages, each with the next serial after `last`.
pub(crate) fn write_pages<D: Device>(
    device: &mut D,
    log: &Log,
    last: u64,
    memory: &[u8; MEMORY],
    pages: PageSet,
) -> Result<(), DeviceFault>
    requires bounded { last + length (members pages.bits) < 2 ^ 63 }
    requires room { log.now.places ≤ (D.Device.disk device.old).plate.sectors }
    ensures { Tries (D.Device.disk device.old) (appending log.now.places log.now.low last (map (page_item log.now.ordinal memory.now) (members pages.bits))) result (D.Device.disk device.new) }
{
    let mut serial = last;
    for page in pages.iter() {
        serial += 1;
        write_page(device, log, serial, memory, page)?;
    }
    Ok(())
}

// The sector of a page's home: its bytes, and zeros after them.
fn home_of(memory: &[u8; MEMORY], page: usize) -> [u8; SECTOR]
    requires { page < 64 }
    ensures { result ≡ home_of memory.now page }
{
    let start = page * PAGE;
    let mut sector = [0u8; SECTOR];
    sector[0..PAGE].copy_from_slice(&memory[start..start + PAGE]);
    sector
}

// Writes a page home.
fn write_home<D: Device>(
    device: &mut D,
    places: usize,
    memory: &[u8; MEMORY],
    page: usize,
) -> Result<(), DeviceFault>
    requires page { page < 64 }
    requires few { places ≤ 1024 }
    requires room { places + 64 ≤ (D.Device.disk device.old).plate.sectors }
    ensures { Tries (D.Device.disk device.old) (wrote (places + page) (home_of memory.now page) ∷ []) result (D.Device.disk device.new) }
{
    device.write(places + page, &home_of(memory, page))
}

// Writes these pages home.
pub(crate) fn write_homes<D: Device>(
    device: &mut D,
    places: usize,
    memory: &[u8; MEMORY],
    pages: PageSet,
) -> Result<(), DeviceFault>
    requires few { places ≤ 1024 }
    requires room { places + 64 ≤ (D.Device.disk device.old).plate.sectors }
    ensures { Tries (D.Device.disk device.old) (homing places memory.now (members pages.bits)) result (D.Device.disk device.new) }
{
    for page in pages.iter() {
        write_home(device, places, memory, page)?;
    }
    Ok(())
}
