// A log's record in a sector of a device: reading a sector as a record, and laying a record out.

#![tactic(auto)]

ghost use Rattle.std.specs.Prelude.{◌≡◌, length};
ghost use Rattle.record.specs.Entry.{entry};
ghost use Rattle.record.specs.Fields.{field};
ghost use Rattle.record.specs.Calls.{Answered, Told, Written};
ghost use Rattle.record.specs.Kind.{code_of};
ghost use Rattle.record.specs.Label.{Judged, Labels, spelled};

mod label;
mod layout;
pub mod theorems;

use device::SECTOR;
pub use label::{Kind, Label};
use layout::lay_out;

// Where a record's own bytes begin, after its label.
pub const DATA: usize = 32;

// The number of bytes in a page: all that a sector has room for.
pub const PAGE: usize = SECTOR - DATA;

// The number of pages.
pub const PAGES: usize = 64;

// Serials stay below this, where the sign of a 64-bit number would begin, so that one more never wraps.
pub const SERIALS: u64 = 0x8000_0000_0000_0000;

// What every record tells of its log: its own serial, the oldest serial needed when it was written,
// and the number of the last transaction by then.
#[derive(Clone, Copy, PartialEq, Eq, Debug)]
pub struct Head {
    pub serial: u64,
    pub low: u64,
    pub ordinal: u64,
}

// A record, whose bytes stay in the sector that it was read from.
#[derive(Clone, Copy, PartialEq, Eq, Debug)]
pub enum Record<'a> {
    // A part of a transaction: bytes of one page, from this offset on.
    Part {
        head: Head,
        page: u16,
        offset: u16,
        last: bool,
        bytes: &'a [u8],
    },
    // A whole page.
    Page {
        head: Head,
        page: u16,
        bytes: &'a [u8],
    },
    // A place from which the log may be read anew.
    Mark {
        head: Head,
    },
}

// Why a record was not written.
#[derive(Clone, Copy, PartialEq, Eq, Debug)]
pub enum RecordFault {
    // The buffer is no sector.
    Buffer,
    // The record breaks the rule of its kind.
    Rule,
}

impl<'a> Record<'a> {
    // A mark.
    pub fn mark(head: Head) -> Record<'a>
        ensures { result ≡ Record.Mark head }
    {
        Self::Mark { head }
    }

    // What the record tells of its log.
    pub fn head(&self) -> Head
        ensures serial { result.serial ≡ (entry self.now).serial }
        ensures low { result.low ≡ (entry self.now).low }
        ensures ordinal { result.ordinal ≡ (entry self.now).ordinal }
    {
        match *self {
            Record::Part { head, .. } | Record::Page { head, .. } | Record::Mark { head } => head,
        }
    }

    // The record's kind.
    pub fn kind(&self) -> Kind
        ensures { code_of result ≡ (entry self.now).kind }
    {
        match *self {
            Record::Part { last: false, .. } => Kind::More,
            Record::Part { last: true, .. } => Kind::Last,
            Record::Page { .. } => Kind::Whole,
            Record::Mark { .. } => Kind::Mark,
        }
    }

    // The record's own bytes.
    fn bytes(&self) -> &'a [u8]
        ensures { result.now ≡ (entry self.now).bytes }
    {
        match *self {
            Record::Part { bytes, .. } | Record::Page { bytes, .. } => bytes,
            Record::Mark { .. } => &[],
        }
    }

    // The record's label, if it keeps the rule of its kind.
    fn label(&self) -> Option<Label>
        ensures { Labels (entry self.now) result }
    {
        let (page, offset) = match *self {
            Record::Part { page, offset, .. } => (page, offset),
            Record::Page { page, .. } => (page, 0),
            Record::Mark { .. } => (0, 0),
        };
        Label::new(self.head(), self.kind(), page, offset, self.bytes().len())
    }

    // The record with this label and these bytes.
    fn new(label: Label, bytes: &'a [u8]) -> Record<'a>
        requires { length bytes.now ≡ label.length }
        ensures { entry result ≡ spelled label bytes.now }
    {
        let Label {
            head,
            page,
            offset,
            ..
        } = label;
        match label.kind {
            Kind::More | Kind::Last => Record::Part {
                head,
                page,
                offset,
                last: label.kind == Kind::Last,
                bytes,
            },
            Kind::Whole => Record::Page { head, page, bytes },
            Kind::Mark => Record::Mark { head },
        }
    }
}

// The record in a sector at this place of a log of so many sectors, or none where the sector is not
// good there. Any two numbers will do: a type that holds a place to its log would ask more of callers.
#[tactic(auto, unfolding(crate::specs::Entry::reads_as))]
pub fn read<'a>(sector: &'a [u8], place: usize, places: usize) -> Option<Record<'a>>
    ensures good { Answered places place sector.now result }
    ensures told { Told sector.now result }
{
    let label = label_at(sector.as_array()?, place, places)?;
    // The bytes past the record's own mean nothing.
    Some(Record::new(label, &sector[DATA..DATA + label.length]))
}

// Lays the record out in the sector. A buffer that is no sector is refused, and then a record that breaks
// the rule of its kind; the buffer stays as it was.
pub fn write(record: Record, sector: &mut [u8]) -> Result<(), RecordFault>
    ensures { Written (entry «record».entry) sector.old result sector.new }
{
    let Some(sector) = sector.as_mut_array() else {
        return Err(RecordFault::Buffer);
    };
    let label = record.label().ok_or(RecordFault::Rule)?;
    lay_out(sector, label, record.bytes());
    Ok(())
}

// The label of the sector at this place of a log of so many sectors, or none where it is not good there.
pub fn label_at(sector: &[u8; SECTOR], place: usize, places: usize) -> Option<Label>
    ensures { Judged places place sector.now result }
{
    if sector[31] != 0 {
        return None;
    }
    Label::of(sector).filter(|label| label.head.placed(place, places))
}

// The ordinal that a sector tells, where it is good.
pub fn ordinal_of(sector: &[u8; SECTOR]) -> u64
    ensures { result ≡ field 16 8 sector.now }
{
    label::number(sector, 16)
}
