// Clearing the strays that an opening finds. That the device has a sector for each note is asked where both are lent.
ghost use Rattle.std.specs.Prelude.{◌≡◌, ◌≤◌, length, nat_lt};
ghost use Rattle.device.specs.Disk.{Disk};
ghost use Rattle.journal.specs.Notes.{Noted};
ghost use Rattle.journal.specs.Opening.{strays};
ghost use Rattle.recovery.specs.Clearing.{Yields, astray, blanking, clearing};

use device::{Device, DeviceFault, SECTOR};
use journal::Note;

// Whether the note is of a stray: of a record with a serial above `last`.
fn is_stray(note: Note, last: u64) -> bool
    ensures { result ≡ nat_lt last note.serial }
{
    note.serial > last
}

// Writes zeros over each sector whose record has a serial above `last`, and counts them.
fn blank_strays<D: Device>(device: &mut D, notes: &[Note], last: u64) -> Result<usize, DeviceFault>
    requires room { length notes.now ≤ (D.Device.disk device.old).plate.sectors }
    requires noted { Noted (length notes.now) (D.Device.disk device.old).shows notes.now }
    ensures { Yields (D.Device.disk device.old) (blanking (astray (length notes.now) (D.Device.disk device.old).shows last) 0 (length notes.now)) (λ count. count ≡ strays (length notes.now) (D.Device.disk device.old).shows last (length notes.now)) result (D.Device.disk device.new) }
{
    let mut count = 0;
    for (place, note) in notes.iter().enumerate() {
        if is_stray(*note, last) {
            device.write(place, &[0u8; SECTOR])?;
            count += 1;
        }
    }
    Ok(count)
}

// Clears the strays and settles that, so that none of them is found again. Says how many there were.
pub(crate) fn clear<D: Device>(
    device: &mut D,
    notes: &[Note],
    last: u64,
) -> Result<usize, DeviceFault>
    requires room { length notes.now ≤ (D.Device.disk device.old).plate.sectors }
    requires noted { Noted (length notes.now) (D.Device.disk device.old).shows notes.now }
    ensures { Yields (D.Device.disk device.old) (clearing (length notes.now) (D.Device.disk device.old).shows last) (λ count. count ≡ strays (length notes.now) (D.Device.disk device.old).shows last (length notes.now)) result (D.Device.disk device.new) }
{
    let count = blank_strays(device, notes, last)?;
    device.barrier()?;
    Ok(count)
}
