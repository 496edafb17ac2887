// Reading the sectors of a device: each into one buffer that is lent, and from there into notes and the memory.
ghost use Rattle.std.specs.Prelude.{◌≡◌, ℕ, ◌+◌, ◌/◌, ◌%◌, ◌^◌, ◌<◌, ◌≤◌, ◌==◌, if◌then◌else◌, length, take, drop, slice_index, slice_index_or};
ghost use Rattle.device.specs.Disk.{holds};
ghost use Rattle.journal.specs.Log.{log, said, if_serial};
ghost use Rattle.journal.specs.Memory.{overlaid, applied, replayed};
ghost use Rattle.journal.specs.Notes.{Tells, Noted, met, Topped, blank};
ghost use Rattle.journal.specs.Survey.{Surveyed};
ghost use Rattle.recovery.specs.Opening.{Sees, Spares};
ghost use Rattle.recovery.specs.Reading.{Looks, Fetched, Mentions, HomeLoaded, HomesLoaded, Replayed, ReplayedAll};

use crate::MEMORY;
use crate::fault::RecoveryFault;
use crate::places::Places;
use device::{Device, DeviceFault, SECTOR};
use journal::{Latest, Note, Survey, next_place, note_of};
use record::{DATA, Kind, PAGE, PAGES, label_at, ordinal_of};

// Reads a sector into the buffer; false where it is spoiled. That it is there is a premise, here and below, since what
// mentions a record is public and asks nothing.
fn fetch<D: Device>(
    device: &mut D,
    sector: usize,
    buffer: &mut [u8; SECTOR],
) -> Result<bool, DeviceFault>
    ensures { sector < (D.Device.disk device.old).plate.sectors → Looks (D.Device.disk device.old) (Fetched (D.Device.disk device.old) sector buffer.new) result (D.Device.disk device.new) }
{
    match device.read(sector, buffer) {
        Ok(()) => Ok(true),
        Err(DeviceFault::Spoiled(_, _)) => Ok(false),
        Err(fault) => Err(fault),
    }
}

// Puts bytes into memory from `place` on.
fn put_bytes(memory: &mut [u8; MEMORY], place: usize, bytes: &[u8])
    requires { place + length bytes.now ≤ 6144 }
    ensures { (i : ℕ) → slice_index memory.new i ≡ overlaid place bytes.now i (slice_index memory.old i) }
{
    memory[place..place + bytes.len()].copy_from_slice(bytes);
}

// Makes a page of the memory the first bytes of a sector.
fn put_page(memory: &mut [u8; MEMORY], page: usize, sector: &[u8; SECTOR])
    requires { page < 64 }
    ensures { (i : ℕ) → slice_index memory.new i ≡ (if i / 96 == page then slice_index sector.now (i % 96) else slice_index memory.old i) }
{
    put_bytes(memory, page * PAGE, &sector[..PAGE]);
}

// Starts a page from its home; false where that is spoiled, and then from zeros. It is a step of its own, with what
// one page becomes, and answers the yes or no that its caller asks beside another: written there it is no plainer.
fn load_home<D: Device>(
    device: &mut D,
    places: Places,
    page: usize,
    buffer: &mut [u8; SECTOR],
    memory: &mut [u8; MEMORY],
) -> Result<bool, DeviceFault>
    requires page { page < 64 }
    requires room { places.count + 64 ≤ (D.Device.disk device.old).plate.sectors }
    ensures { Looks (D.Device.disk device.old) (HomeLoaded (D.Device.disk device.old) places.count page memory.old memory.new) result (D.Device.disk device.new) }
{
    let readable = fetch(device, places.home_of(page), buffer)?;
    if !readable {
        *buffer = [0; SECTOR];
    }
    put_page(memory, page, buffer);
    Ok(readable)
}

// Starts every page from its home, the lowest first. A page whose home is spoiled and that no record of
// the log that was surveyed covers is refused.
pub(crate) fn load_homes<D: Device>(
    device: &mut D,
    places: Places,
    survey: &Survey,
    buffer: &mut [u8; SECTOR],
    memory: &mut [u8; MEMORY],
) -> Result<(), RecoveryFault>
    requires room { places.count + 64 ≤ (D.Device.disk device.old).plate.sectors }
    requires seen { Surveyed places.count (D.Device.disk device.old).shows survey.now }
    ensures loaded { Sees places.count (D.Device.disk device.old) (λ _. HomesLoaded (D.Device.disk device.old) places.count survey.now.pages memory.new) result (D.Device.disk device.new) }
    ensures spares { Spares result memory.old memory.new }
{
    for page in 0..PAGES {
        let readable = load_home(device, places, page, buffer, memory)?;
        if !readable && !survey.pages.is_covered(page) {
            return Err(RecoveryFault::Uncovered(page));
        }
    }
    Ok(())
}

// Puts so many bytes of a sector, after a label, into memory from `place` on.
fn put_part(memory: &mut [u8; MEMORY], place: usize, sector: &[u8; SECTOR], size: usize)
    requires { (size ≤ 96) × (place + size ≤ 6144) }
    ensures { (i : ℕ) → slice_index memory.new i ≡ overlaid place (take size (drop 32 sector.now)) i (slice_index memory.old i) }
{
    put_bytes(memory, place, &sector[DATA..DATA + size]);
}

// Puts the bytes of the record in a sector in their place, as its note tells; a mark has none.
fn apply(note: Note, sector: &[u8; SECTOR], place: usize, places: usize, memory: &mut [u8; MEMORY])
    requires { Tells (said places place (holds sector.now)) note }
    ensures { (i : ℕ) → slice_index memory.new i ≡ applied (said places place (holds sector.now)) i (slice_index memory.old i) }
{
    let start = note.page as usize * PAGE + note.offset as usize;
    put_part(memory, start, sector, note.size as usize);
}

// Applies what this place holds.
fn replay_place<D: Device>(
    device: &mut D,
    notes: &[Note],
    place: usize,
    buffer: &mut [u8; SECTOR],
    memory: &mut [u8; MEMORY],
) -> Result<(), DeviceFault>
    requires inside { place < length notes.now }
    requires there { place < (D.Device.disk device.old).plate.sectors }
    requires tells { Tells (said (length notes.now) place ((D.Device.disk device.old).shows place)) (slice_index_or notes.now place blank) }
    ensures { Looks (D.Device.disk device.old) (λ _. Replayed (D.Device.disk device.old) (length notes.now) place buffer.new memory.old memory.new) result (D.Device.disk device.new) }
{
    if fetch(device, place, buffer)? {
        apply(notes[place], buffer, place, notes.len(), memory);
    }
    Ok(())
}

// Applies the records from `low` to `last` in their order, and answers the ordinal that the last of them carries.
pub(crate) fn replay<D: Device>(
    device: &mut D,
    notes: &[Note],
    survey: &Survey,
    buffer: &mut [u8; SECTOR],
    memory: &mut [u8; MEMORY],
) -> Result<u64, DeviceFault>
    requires room { length notes.now ≤ (D.Device.disk device.old).plate.sectors }
    requires noted { Noted (length notes.now) (D.Device.disk device.old).shows notes.now }
    requires seen { Surveyed (length notes.now) (D.Device.disk device.old).shows survey.now }
    ensures { Looks (D.Device.disk device.old) (ReplayedAll (length notes.now) (D.Device.disk device.old) survey.now.low survey.now.last memory.old memory.new) result (D.Device.disk device.new) }
{
    let places = notes.len();
    let mut place = (survey.low % places as u64) as usize;
    for _serial in survey.low..survey.last {
        replay_place(device, notes, place, buffer, memory)?;
        place = next_place(place, places);
    }
    replay_place(device, notes, place, buffer, memory)?;
    Ok(ordinal_of(buffer))
}

// What a record says of a page, and its kind.
#[derive(Clone, Copy)]
pub struct Mention {
    pub kind: Kind,
    pub page: u16,
    // Whether the record's bytes are a whole page.
    pub whole: bool,
}

// What the record with this serial says, where the log has it. A log with no places has none.
pub fn note_at<D: Device>(
    device: &mut D,
    places: usize,
    serial: u64,
) -> Result<Option<Mention>, DeviceFault>
    ensures { places ≤ (D.Device.disk device.old).plate.sectors → Looks (D.Device.disk device.old) (Mentions (log places (D.Device.disk device.old).shows serial)) result (D.Device.disk device.new) }
{
    let Some(place) = serial.checked_rem(places as u64) else {
        return Ok(None);
    };
    let mut buffer = [0; SECTOR];
    if !fetch(device, place as usize, &mut buffer)? {
        return Ok(None);
    }
    Ok(mention_at(&buffer, place as usize, places, serial))
}

// What the record with this serial says, where this place holds it.
fn mention_at(sector: &[u8; SECTOR], place: usize, places: usize, serial: u64) -> Option<Mention>
    ensures { Mentions (if_serial serial (said places place (holds sector.now))) result }
{
    let label = label_at(sector, place, places)?;
    if label.head.serial != serial {
        return None;
    }
    Some(Mention {
        kind: label.kind,
        page: label.page,
        whole: label.length == PAGE,
    })
}

// Notes what this place of the log holds, and meets it. The note is written where it is kept: in an answer it would
// share its bytes with a fault.
fn look<D: Device>(
    device: &mut D,
    place: usize,
    places: usize,
    buffer: &mut [u8; SECTOR],
    latest: &mut Latest,
    note: &mut Note,
) -> Result<(), DeviceFault>
    requires { place < (D.Device.disk device.old).plate.sectors }
    ensures { Looks (D.Device.disk device.old) (λ _. Tells (said places place ((D.Device.disk device.old).shows place)) note.new × (latest.new ≡ met (said places place ((D.Device.disk device.old).shows place)) latest.old)) result (D.Device.disk device.new) }
{
    if !fetch(device, place, buffer)? {
        *note = Note::BLANK;
        return Ok(());
    }
    *note = note_of(buffer, place, places, latest);
    Ok(())
}

// Notes what each place of the log holds, and answers the latest record.
pub(crate) fn scan<D: Device>(
    device: &mut D,
    notes: &mut [Note],
    buffer: &mut [u8; SECTOR],
) -> Result<Latest, DeviceFault>
    requires { length notes.old ≤ (D.Device.disk device.old).plate.sectors }
    ensures { Looks (D.Device.disk device.old) (λ latest. Noted (length notes.new) (D.Device.disk device.old).shows notes.new × Topped (length notes.new) (D.Device.disk device.old).shows (length notes.new) latest) result (D.Device.disk device.new) }
{
    let places = notes.len();
    let mut latest = Latest::new();
    for (place, note) in notes.iter_mut().enumerate() {
        look(device, place, places, buffer, &mut latest, note)?;
    }
    Ok(latest)
}
