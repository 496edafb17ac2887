// Opening a log: what the log says, the memory that it makes, and the strays cleared.
ghost use Rattle.std.specs.Prelude.{◌≡◌, ◌+◌, ◌≤◌, length};
ghost use Rattle.journal.specs.Notes.{Noted};
ghost use Rattle.journal.specs.Survey.{Surveyed};
ghost use Rattle.recovery.specs.Opening.{Sees, Rebuilt, Recovers, Opens, Spares};

use crate::MEMORY;
use crate::clearing::clear;
use crate::fault::RecoveryFault;
use crate::places::{MOST, Places};
use crate::reading::{load_homes, replay, scan};
use device::{Device, SECTOR};
use journal::{Note, PageTable, Survey, survey_of};

// What an opening found.
#[derive(Clone, Copy)]
pub struct Recovery {
    // The serial of the mark that the log begins with, and that of its last record.
    pub low: u64,
    pub last: u64,
    // The number of the last transaction.
    pub ordinal: u64,
    // How many strays were cleared.
    pub strays: usize,
    // What the records from low to last say of the pages.
    pub pages: PageTable,
}

// Notes what every place of the log holds, and surveys it.
fn inspect<D: Device>(
    device: &mut D,
    notes: &mut [Note],
    buffer: &mut [u8; SECTOR],
) -> Result<Survey, RecoveryFault>
    requires { length notes.old ≤ (D.Device.disk device.old).plate.sectors }
    ensures { Sees (length notes.new) (D.Device.disk device.old) (λ s. Noted (length notes.new) (D.Device.disk device.old).shows notes.new × Surveyed (length notes.new) (D.Device.disk device.old).shows s) result (D.Device.disk device.new) }
{
    let latest = scan(device, notes, buffer)?;
    Ok(survey_of(notes, latest)?)
}

// Makes the memory from the homes and the records of a log that was surveyed, and answers the ordinal of the last.
fn rebuild<D: Device>(
    device: &mut D,
    places: Places,
    notes: &[Note],
    survey: &Survey,
    buffer: &mut [u8; SECTOR],
    memory: &mut [u8; MEMORY],
) -> Result<u64, RecoveryFault>
    requires sized { length notes.now ≡ places.count }
    requires room { places.count + 64 ≤ (D.Device.disk device.old).plate.sectors }
    requires noted { Noted places.count (D.Device.disk device.old).shows notes.now }
    requires seen { Surveyed places.count (D.Device.disk device.old).shows survey.now }
    ensures rebuilt { Sees places.count (D.Device.disk device.old) (Rebuilt places.count (D.Device.disk device.old).shows survey.now.low survey.now.last memory.new) result (D.Device.disk device.new) }
    ensures spares { Spares result memory.old memory.new }
{
    load_homes(device, places, survey, buffer, memory)?;
    Ok(replay(device, notes, survey, buffer, memory)?)
}

// Recovers a log on a device that was just restarted.
fn recover<D: Device>(
    device: &mut D,
    places: Places,
    notes: &mut [Note],
    memory: &mut [u8; MEMORY],
) -> Result<Recovery, RecoveryFault>
    requires sized { length notes.old ≡ places.count }
    requires room { places.count + 64 ≤ (D.Device.disk device.old).plate.sectors }
    ensures recovers { Recovers places.count (D.Device.disk device.old) result (D.Device.disk device.new) memory.new }
    ensures spares { Spares result memory.old memory.new }
{
    let mut buffer = [0; SECTOR];
    let survey = inspect(device, notes, &mut buffer)?;
    let ordinal = rebuild(device, places, notes, &survey, &mut buffer, memory)?;
    let strays = clear(device, notes, survey.last)?;
    Ok(Recovery {
        low: survey.low,
        last: survey.last,
        ordinal,
        strays,
        pages: survey.pages,
    })
}

// The same with room for the notes.
fn recover_places<D: Device>(
    device: &mut D,
    places: Places,
    memory: &mut [u8; MEMORY],
) -> Result<Recovery, RecoveryFault>
    requires { places.count + 64 ≤ (D.Device.disk device.old).plate.sectors }
    ensures recovers { Recovers places.count (D.Device.disk device.old) result (D.Device.disk device.new) memory.new }
    ensures spares { Spares result memory.old memory.new }
{
    let mut notes = [Note::BLANK; MOST];
    recover(device, places, &mut notes[..places.count], memory)
}

// Opens the log of a device, on or off, and makes the memory from it. Where it refuses for the number of sectors, for
// no record or for no mark, the memory stays as it was; where it refuses for a home, or power fails, it may be changed.
pub fn open_log<D: Device>(
    device: &mut D,
    memory: &mut [u8; MEMORY],
) -> Result<Recovery, RecoveryFault>
    ensures opens { Opens (D.Device.disk device.old) result (D.Device.disk device.new) memory.new }
    ensures whole { length memory.new ≡ 6144 }
    ensures spares { Spares result memory.old memory.new }
{
    let places = Places::try_from(device.sectors())?;
    device.restart()?;
    recover_places(device, places, memory)
}
