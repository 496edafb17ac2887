// The short note that an opening keeps of each place of a log: all that it asks of a record but its bytes, in 16 bytes.
ghost use Rattle.device.specs.Disk.{holds};
ghost use Rattle.journal.specs.Log.{said};
ghost use Rattle.journal.specs.Notes.{Tells, TellsOf, later, met};
ghost use Rattle.std.specs.Prelude.{◌≡◌};

use device::SECTOR;
use record::{Head, Kind, Label, label_at};

// What a place of a log holds.
#[derive(Clone, Copy, PartialEq, Eq, Debug)]
pub struct Note {
    // The record's serial; 0 where there is no record.
    pub serial: u64,
    // Its kind, if there is a record.
    pub kind: Option<Kind>,
    // The page that it is of, where its bytes begin there, and how many they are; 0 of a mark.
    pub page: u8,
    pub offset: u8,
    pub size: u8,
}

impl Note {
    // The note of a place that holds no record.
    pub const BLANK: Note = Note {
        serial: 0,
        kind: None,
        page: 0,
        offset: 0,
        size: 0,
    };
}

impl From<Label> for Note {
    ghost from_gives = { λ l x. TellsOf l x };

    // No number of a label is greater than 96.
    fn from(label: Label) -> Note {
        Note {
            serial: label.head.serial,
            kind: Some(label.kind),
            page: label.page as u8,
            offset: label.offset as u8,
            size: label.length as u8,
        }
    }
}

// The record with the greatest serial of those that were met.
#[derive(Clone, Copy, PartialEq, Eq, Debug)]
pub struct Latest {
    // Its serial; 0 where no record was met.
    pub serial: u64,
    // The serial that the log begins with, as it tells.
    pub low: u64,
}

impl Latest {
    // Where no record was met yet.
    pub fn new() -> Latest
        ensures { result ≡ record { serial = 0; low = 0 } }
    {
        Latest { serial: 0, low: 0 }
    }

    // Meets the record with this head too.
    fn meet(&mut self, head: Head)
        ensures { self.new ≡ later head.serial head.low self.old }
    {
        if self.serial < head.serial {
            self.serial = head.serial;
            self.low = head.low;
        }
    }
}

// Notes what a sector with these bytes holds, at this place of a log of so many sectors, and meets it.
pub fn note_of(sector: &[u8; SECTOR], place: usize, places: usize, latest: &mut Latest) -> Note
    ensures notes { Tells (said places place (holds sector.now)) result }
    ensures meets { latest.new ≡ met (said places place (holds sector.now)) latest.old }
{
    let Some(label) = label_at(sector, place, places) else {
        return Note::BLANK;
    };
    latest.meet(label.head);
    Note::from(label)
}
