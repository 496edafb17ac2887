// A table for what a good sector is, and one for each thing that a store answers.
use super::*;
use battery::Battery;
use cards::Card;
use device::SECTOR;
use record::{Head, Record};
use std::alloc::Global;
use std::test::Fail;
use transactions::{Store, StoreFault};

// Numbers put into a sector: a serial, a low and an ordinal; a kind, a page, an offset and a length; or
// the byte after those.
#[derive(Clone, Copy)]
enum Edit {
    Head(u64, u64, u64),
    Piece(u8, u16, u16, u16),
    Rest(u8),
}

// Where the numbers stand, each with its lowest byte first.
fn put(sector: &mut [u8; SECTOR], edit: Edit) {
    match edit {
        Edit::Head(serial, low, ordinal) => {
            sector[0..8].copy_from_slice(&serial.to_le_bytes());
            sector[8..16].copy_from_slice(&low.to_le_bytes());
            sector[16..24].copy_from_slice(&ordinal.to_le_bytes());
        }
        Edit::Piece(kind, page, offset, length) => {
            sector[24..26].copy_from_slice(&page.to_le_bytes());
            sector[26..28].copy_from_slice(&offset.to_le_bytes());
            sector[28..30].copy_from_slice(&length.to_le_bytes());
            sector[30] = kind;
        }
        Edit::Rest(byte) => sector[31] = byte,
    }
}

// The last part of a transaction, for place 5 of a log of 160 sectors.
const BASE: Record = Record::Part {
    head: Head {
        serial: 325,
        low: 300,
        ordinal: 20,
    },
    page: 10,
    offset: 20,
    last: true,
    bytes: &[7; 16],
};

// The base with this edit.
fn edited(edit: Edit) -> [u8; SECTOR] {
    let mut sector = [0u8; SECTOR];
    let _ = record::write(BASE, &mut sector);
    put(&mut sector, edit);
    sector
}

// Whether the base with this edit is good at this place of a log of 160 sectors.
fn good(place: usize, edit: Edit) -> bool {
    let sector = edited(edit);
    record::read(&sector, place, 160).is_some()
}

// The first serial that no record may have, by hand as all that is expected here.
const TOP: u64 = 0x8000_0000_0000_0000;

// Each test of a sector, by one that just passes it and one that just fails it.
#[test]
fn good_sectors(rt: HostRuntime) {
    let table = [
        // The byte that must be 0, and the place.
        (5, Edit::Rest(0), true),
        (5, Edit::Rest(1), false),
        (4, Edit::Rest(0), false),
        (6, Edit::Rest(0), false),
        (165, Edit::Rest(0), false),
        // The first serial and the last.
        (0, Edit::Head(0, 0, 0), false),
        (0, Edit::Head(0, 1, 0), false),
        (1, Edit::Head(1, 1, 0), true),
        (127, Edit::Head(TOP - 1, TOP - 1, 20), true),
        (128, Edit::Head(TOP, TOP, 20), false),
        // The oldest serial needed: from 1 on, at most the record's own, and less than a whole log back.
        (5, Edit::Head(5, 0, 4), false),
        (5, Edit::Head(5, 1, 4), true),
        (5, Edit::Head(325, 325, 20), true),
        (5, Edit::Head(325, 326, 20), false),
        (5, Edit::Head(325, 166, 20), true),
        (5, Edit::Head(325, 165, 20), false),
        // Fewer transactions than serials.
        (5, Edit::Head(325, 300, 324), true),
        (5, Edit::Head(325, 300, 325), false),
        // A piece of a page, which is not empty and ends in it.
        (5, Edit::Piece(2, 63, 20, 16), true),
        (5, Edit::Piece(2, 64, 20, 16), false),
        (5, Edit::Piece(2, 10, 20, 1), true),
        (5, Edit::Piece(2, 10, 20, 0), false),
        (5, Edit::Piece(2, 10, 20, 76), true),
        (5, Edit::Piece(2, 10, 20, 77), false),
        (5, Edit::Piece(2, 10, 95, 1), true),
        (5, Edit::Piece(2, 10, 96, 1), false),
        (5, Edit::Piece(2, 10, 65535, 1), false),
        // A whole page has all of its bytes, and a mark none.
        (5, Edit::Piece(3, 10, 0, 96), true),
        (5, Edit::Piece(3, 10, 0, 95), false),
        (5, Edit::Piece(3, 10, 1, 96), false),
        (5, Edit::Piece(4, 0, 0, 0), true),
        (5, Edit::Piece(4, 0, 0, 1), false),
        (5, Edit::Piece(4, 0, 1, 0), false),
        (5, Edit::Piece(4, 1, 0, 0), false),
        // The kinds.
        (5, Edit::Piece(0, 10, 20, 16), false),
        (5, Edit::Piece(1, 10, 20, 16), true),
        (5, Edit::Piece(5, 10, 20, 16), false),
    ];
    for (place, edit, passes) in table {
        assert_eq!(rt; good(place, edit), passes);
    }
}

// What an opening answers: the number of transactions and of strays, or a refusal.
type Opening = Result<(u64, usize), StoreFault>;

// What a format of a device answers, and an opening of it after that.
fn formats<D: Device + Drop>(device: D) -> (Result<(), StoreFault>, Opening) {
    let (store, formatted) = Store::format(device);
    let (store, opened) = Store::open(store.close());
    let _ = store.close();
    (formatted, opened)
}

// The same on a card of so many sectors that are full of ones and spoiled.
fn formats_card(heap: Global, sectors: usize) -> Result<(Result<(), StoreFault>, Opening), Fail> {
    let mut card = Card::blank(heap, sectors, 1)?;
    card.sectors = vec![in heap; [255u8; SECTOR]; sectors]?;
    card.flags = vec![in heap; 1u8; sectors]?;
    Ok(formats(card.device()?))
}

#[test]
fn sizes(rt: HostRuntime) -> Result<(), Fail> {
    let table = [
        (
            223usize,
            (Err(StoreFault::Size(223)), Err(StoreFault::Size(223))),
        ),
        (224, (Ok(()), Ok((0, 0)))),
        (1088, (Ok(()), Ok((0, 0)))),
        (
            1089,
            (Err(StoreFault::Size(1089)), Err(StoreFault::Size(1089))),
        ),
    ];
    for (sectors, answers) in table {
        assert_eq!(rt; formats_card(rt.alloc(), sectors)?, answers);
    }
    assert_eq!(rt; formats(Battery::new(7)), (Ok(()), Ok((0, 0))));
    Ok(())
}

// A record of a log whose oldest serial needed is 1, laid by hand: the tables don't rest on what they test.
#[derive(Clone, Copy)]
enum Kind {
    Mark,
    More,
    Last,
}

// Writes the record with these numbers in its place of a log.
fn lay<D: Device>(
    device: &mut D,
    places: usize,
    serial: u64,
    ordinal: u64,
    kind: Kind,
) -> Result<(), DeviceFault> {
    let head = Head {
        serial,
        low: 1,
        ordinal,
    };
    let record = match kind {
        Kind::Mark => Record::mark(head),
        Kind::More => part(head, false),
        Kind::Last => part(head, true),
    };
    let mut sector = [0u8; SECTOR];
    let _ = record::write(record, &mut sector);
    device.write((serial as usize).checked_rem(places).unwrap_or(0), &sector)
}

fn part(head: Head, last: bool) -> Record<'static> {
    Record::Part {
        head,
        page: 3,
        offset: 8,
        last,
        bytes: &[9; 8],
    }
}

// What two openings, one after the other, answer of a device where these records are laid first.
fn opens<D: Device + Drop>(
    mut device: D,
    records: &[(u64, u64, Kind)],
) -> Result<(Opening, Opening), DeviceFault> {
    for (serial, ordinal, kind) in records {
        lay(&mut device, 160, *serial, *ordinal, *kind)?;
    }
    let (store, first) = Store::open(device);
    let (store, second) = Store::open(store.close());
    let _ = store.close();
    Ok((first, second))
}

// The same on a card of zeros where one sector is spoiled.
fn opens_card(
    heap: Global,
    spoiled: usize,
    records: &[(u64, u64, Kind)],
) -> Result<(Opening, Opening), Fail> {
    let mut card = Card::blank(heap, 224, 1)?;
    *card.flags.get_mut(spoiled).ok_or("no such sector")? = 1;
    Ok(opens(card.device()?, records)?)
}

#[test]
fn openings(rt: HostRuntime) -> Result<(), Fail> {
    // The transaction at serial 4 is behind a gap, so it is no part of the log.
    assert_eq!(rt;
        opens_card(
            rt.alloc(),
            3,
            &[(1, 0, Kind::Mark), (2, 1, Kind::Last), (4, 2, Kind::Last)],
        )?,
        (Ok((1, 1)), Ok((1, 0)))
    );
    // A transaction whose last part was not written is none.
    assert_eq!(rt;
        opens_card(
            rt.alloc(),
            9,
            &[(1, 0, Kind::Mark), (2, 0, Kind::More), (3, 0, Kind::More)],
        )?,
        (Ok((0, 2)), Ok((0, 0)))
    );
    // No record at all, no mark where the log begins, and the home of page 5 lost with nothing to cover it.
    assert_eq!(rt;
        opens_card(rt.alloc(), 1, &[])?,
        (Err(StoreFault::NoLog), Err(StoreFault::NoLog))
    );
    assert_eq!(rt;
        opens_card(rt.alloc(), 3, &[(1, 0, Kind::Last)])?,
        (Err(StoreFault::NoMark(1)), Err(StoreFault::NoMark(1)))
    );
    assert_eq!(rt;
        opens_card(rt.alloc(), 165, &[(1, 0, Kind::Mark)])?,
        (Err(StoreFault::Uncovered(5)), Err(StoreFault::Uncovered(5)))
    );
    // The numbers by which the table of refusals names these three.
    let numbered = [
        (StoreFault::NoLog, 6),
        (StoreFault::NoMark(1), 7),
        (StoreFault::Uncovered(5), 8),
    ];
    for (fault, number) in numbered {
        assert_eq!(rt; fault.number(), number);
    }
    Ok(())
}

// What an opening answers, and how many sectors it reads, where a log of 1,024 sectors has a mark and 1,023
// transactions.
fn reads<D: Device + Drop>(device: D) -> Result<(Opening, usize), DeviceFault> {
    let mut device = Counted::new(device);
    lay(&mut device, 1024, 1, 0, Kind::Mark)?;
    // Serials, which index nothing.
    for serial in 2..1025u64 {
        lay(&mut device, 1024, serial, serial - 1, Kind::Last)?;
    }
    let (store, answer) = Store::open(device);
    Ok((answer, store.close().reads))
}

// The largest log is opened by 2,112 reads: each of its 1,024 sectors twice, and each of 64 homes once.
#[test]
fn reads_of_an_opening(rt: HostRuntime) -> Result<(), Fail> {
    let mut card = Card::blank(rt.alloc(), 1088, 1)?;
    assert_eq!(rt; reads(card.device()?)?, (Ok((1023, 0)), 2 * 1024 + 64));
    Ok(())
}
