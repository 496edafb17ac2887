// The numbers before a sector's data, and the rules that they keep in a good sector.
ghost use Rattle.std.specs.Prelude.{◌≡◌, ◌+◌, ◌<◌, ◌≤◌, ◌↔◌, IsTrue, take, drop};
ghost use Rattle.record.specs.Good.{Placed, Fits};
ghost use Rattle.record.specs.Fields.{field};
ghost use Rattle.record.specs.Kind.{code_of, Decoded};

use crate::{Head, PAGE, PAGES, SERIALS};
use device::SECTOR;

// The kinds: a part of a transaction with more parts to come, its last part, a whole page, a mark.
#[derive(Clone, Copy, PartialEq, Eq, Debug)]
pub enum Kind {
    More = 1,
    Last = 2,
    Whole = 3,
    Mark = 4,
}

// A byte that stands for no kind.
#[derive(Clone, Copy, PartialEq, Eq, Debug)]
pub struct NoKind;

impl From<Kind> for u8 {
    ghost from_gives = { λ kind byte. byte ≡ code_of kind };

    fn from(kind: Kind) -> u8 {
        kind as u8
    }
}

impl TryFrom<u8> for Kind {
    type Error = NoKind;

    ghost try_from_gives = { Decoded };

    fn try_from(byte: u8) -> Result<Kind, NoKind> {
        match byte {
            1 => Ok(Kind::More),
            2 => Ok(Kind::Last),
            3 => Ok(Kind::Whole),
            4 => Ok(Kind::Mark),
            _ => Err(NoKind),
        }
    }
}

impl Kind {
    // Whether page, offset and length keep the rule of the kind.
    fn fits(self, page: u16, offset: u16, length: usize) -> bool
        ensures { IsTrue result ↔ Fits (code_of self) page offset length }
    {
        match self {
            Kind::More | Kind::Last => within(page, offset, length),
            Kind::Whole => within(page, offset, length) && length == PAGE,
            Kind::Mark => page == 0 && offset == 0 && length == 0,
        }
    }
}

// Whether page, offset and length are those of a piece of a page.
fn within(page: u16, offset: u16, length: usize) -> bool
    ensures { IsTrue result ↔ ((page < 64) × (1 ≤ length) × (offset + length ≤ 96)) }
{
    let offset = offset as usize;
    // The two tests on the offset, since a sum with a length that is not known yet could wrap.
    (page as usize) < PAGES && 1 <= length && offset <= PAGE && length <= PAGE - offset
}

impl Head {
    // Whether a record with this head may stand at this place of a log of so many sectors.
    pub(crate) fn placed(self, place: usize, places: usize) -> bool
        ensures { IsTrue result ↔ Placed places place self.serial self.low self.ordinal }
    {
        1 <= self.serial
            && self.serial < SERIALS
            && 1 <= self.low
            && self.low <= self.serial
            && self.serial - self.low < places as u64
            && self.ordinal < self.serial
            && self.serial % places as u64 == place as u64
    }
}

// Everything in a sector but the record's bytes, with the rule of its kind kept.
#[derive(Clone, Copy, PartialEq, Eq, Debug)]
pub struct Label {
    pub head: Head,
    pub kind: Kind,
    pub page: u16,
    pub offset: u16,
    pub length: usize,
    ghost fits: { Fits (code_of kind) page offset length },
}

impl Label {
    ghost use Rattle.record.specs.Label.{Numbered, Labelled};

    // The label of these numbers, if they keep the rule of their kind.
    pub(crate) fn new(
        head: Head,
        kind: Kind,
        page: u16,
        offset: u16,
        length: usize,
    ) -> Option<Label>
        ensures { Numbered head kind page offset length result }
    {
        if !kind.fits(page, offset, length) {
            return None;
        }
        Some(Label {
            head,
            kind,
            page,
            offset,
            length,
        })
    }

    // The label in a sector, if its numbers keep the rule of a kind.
    pub(crate) fn of(sector: &[u8; SECTOR]) -> Option<Label>
        ensures { Labelled sector.now result }
    {
        let head = Head {
            serial: number(sector, 0),
            low: number(sector, 8),
            ordinal: number(sector, 16),
        };
        let page = u16::from_le_bytes(part(sector, 24));
        let offset = u16::from_le_bytes(part(sector, 26));
        let length = u16::from_le_bytes(part(sector, 28));
        let kind = Kind::try_from(sector[30]).ok()?;
        Label::new(head, kind, page, offset, length as usize)
    }
}

// The number in the eight bytes of a sector from `at` on.
pub(crate) fn number(sector: &[u8; SECTOR], at: usize) -> u64
    requires { at + 8 ≤ SECTOR }
    ensures { result ≡ field at 8 sector.now }
{
    u64::from_le_bytes(part(sector, at))
}

// The bytes of a sector from `at` on, as many as the number has that they are read as.
fn part<const N: usize>(sector: &[u8; SECTOR], at: usize) -> [u8; N]
    requires { at + N ≤ SECTOR }
    ensures { result ≡ take N (drop at sector.now) }
{
    sector[at..at + N].try_into().unwrap()
}
