// A table for each thing that a store promises, its answers worked out by hand.
use super::*;
use battery::Battery;
use cards::Card;
use device::{DeviceFault, SECTOR};
use record::{Head, Record};
use std::alloc::Global;
use std::process::Abort;
use std::test::Fail;

type Row<'a> = (Call<'a>, Answer);

const BEGIN: Call<'static> = Call::With(Deed::Begin);

const ABORT: Call<'static> = Call::With(Deed::Abort);
// A commit with flush, and one without.
const COMMIT: Call<'static> = Call::With(Deed::Commit(true));

const SPOOL: Call<'static> = Call::With(Deed::Commit(false));

fn range(start: usize, size: usize) -> Call<'static> {
    Call::With(Deed::SetRange(start, size))
}

fn write<'a>(start: usize, bytes: &'a [u8]) -> Call<'a> {
    Call::With(Deed::Write(start, bytes))
}

// The call answers this.
fn is<'a>(call: Call<'a>, told: Told) -> Row<'a> {
    (call, Ok(told))
}

// The call answers nothing but that it was made.
fn done<'a>(call: Call<'a>) -> Row<'a> {
    (call, Ok(Told::Done))
}

// The call is refused.
fn no<'a>(call: Call<'a>, fault: StoreFault) -> Row<'a> {
    (call, Err(fault))
}

// Makes the calls of a table in turn, and holds each answer to the one beside it.
fn holds<D: Device>(rt: &impl Abort, desk: Desk<D>, table: &[Row]) -> D {
    let mut desk = desk;
    for (call, answer) in table {
        let (next, told) = desk.play(*call);
        desk = next;
        assert_eq!(rt; told, *answer);
    }
    desk.end()
}

// The same on a new store.
fn holds_new<D: Device>(rt: &impl Abort, device: D, table: &[Row]) -> D {
    let (desk, answer) = Desk::format(device);
    assert_eq!(rt; answer, Ok(Told::Done));
    holds(rt, desk, table)
}

// The same on the store that a device holds, which opens so.
fn holds_old<D: Device>(rt: &impl Abort, device: D, opened: Told, table: &[Row]) -> D {
    let (desk, answer) = Desk::open(device);
    assert_eq!(rt; answer, Ok(opened));
    holds(rt, desk, table)
}

// A new store in battery memory, and one on a card, both with a log of 160 sectors.
fn holds_anywhere(rt: &impl Abort, heap: Global, table: &[Row]) -> Result<(), Fail> {
    let _ = holds_new(rt, Battery::new(7), table);
    let mut card = Card::blank(heap, 224, 1)?;
    let _ = holds_new(rt, card.device()?, table);
    Ok(())
}

#[test]
fn ranges(rt: HostRuntime) -> Result<(), Fail> {
    holds_anywhere(
        &rt,
        rt.alloc(),
        &[
            is(BEGIN, Told::Token(1)),
            no(range(6143, 2), StoreFault::Range(6143)),
            no(range(6143, 0), StoreFault::Range(6143)),
            no(range(usize::MAX, 2), StoreFault::Range(usize::MAX)),
            done(range(6143, 1)),
            no(write(6143, &[1, 2]), StoreFault::Range(6143)),
            no(write(6142, &[1, 2]), StoreFault::Undeclared(6142)),
            done(write(6143, &[3])),
            is(Call::Byte(6143), Told::Byte(3)),
            no(Call::Byte(6144), StoreFault::Range(6144)),
            // Behind the token's back neither a second transaction begins nor a truncation.
            done(Call::Swap),
            no(BEGIN, StoreFault::Busy(1)),
            no(Call::Truncate, StoreFault::Busy(1)),
            is(Call::Flush, Told::Count(0)),
            done(Call::Swap),
            is(COMMIT, Told::Pair(1, 1)),
            // A commit with nothing declared uses no ordinal.
            is(BEGIN, Told::Token(2)),
            is(COMMIT, Told::Pair(1, 0)),
            is(BEGIN, Told::Token(2)),
            done(ABORT),
        ],
    )
}

#[test]
fn runs(rt: HostRuntime) -> Result<(), Fail> {
    // Every other byte, sixteen times.
    let mut table = vec![in rt.alloc(); is(BEGIN, Told::Token(1))]?;
    for i in 0..16usize {
        table.push(done(range(2 * i, 1)))?;
    }
    table.push(no(range(32, 1), StoreFault::Runs(32)))?;
    // Byte 1 makes one run of two, so that there is room for one.
    table.push(done(range(1, 1)))?;
    table.push(done(range(32, 1)))?;
    table.push(no(range(34, 1), StoreFault::Runs(34)))?;
    table.push(is(COMMIT, Told::Pair(1, 16)))?;
    holds_anywhere(&rt, rt.alloc(), table.as_slice())
}

#[test]
fn a_full_log(rt: HostRuntime) -> Result<(), Fail> {
    holds_anywhere(
        &rt,
        rt.alloc(),
        &[
            is(BEGIN, Told::Token(1)),
            done(range(0, 6144)),
            is(COMMIT, Told::Pair(1, 64)),
            is(BEGIN, Told::Token(2)),
            done(range(0, 15 * 96)),
            is(COMMIT, Told::Pair(2, 15)),
            // The mark and 79 records live, and 15 more may come: 65 of 160 places stay in reserve.
            is(BEGIN, Told::Token(3)),
            done(range(0, 15 * 96)),
            is(COMMIT, Told::Pair(3, 15)),
            is(BEGIN, Told::Token(4)),
            done(range(0, 1)),
            done(write(0, &[9])),
            no(COMMIT, StoreFault::Full(1)),
            is(Call::Byte(0), Told::Byte(0)),
            is(BEGIN, Told::Token(4)),
            done(range(95, 2)),
            no(SPOOL, StoreFault::Full(2)),
            is(Call::Truncate, Told::Count(64)),
            is(Call::Truncate, Told::Count(0)),
            is(BEGIN, Told::Token(4)),
            done(range(0, 1)),
            done(write(0, &[9])),
            is(COMMIT, Told::Pair(4, 1)),
            is(Call::Reopen, Told::Pair(4, 0)),
            is(Call::Byte(0), Told::Byte(9)),
        ],
    )
}

#[test]
fn a_full_spool(rt: HostRuntime) -> Result<(), Fail> {
    holds_anywhere(
        &rt,
        rt.alloc(),
        &[
            is(BEGIN, Told::Token(1)),
            done(range(0, 31 * 96)),
            is(SPOOL, Told::Pair(1, 31)),
            is(BEGIN, Told::Token(2)),
            done(range(0, 1)),
            done(write(0, &[1])),
            is(SPOOL, Told::Pair(2, 1)),
            // The 33rd waits only if it needn't.
            is(BEGIN, Told::Token(3)),
            done(range(0, 1)),
            done(write(0, &[2])),
            no(SPOOL, StoreFault::SpoolFull(1)),
            is(Call::Byte(0), Told::Byte(1)),
            is(BEGIN, Told::Token(3)),
            done(range(0, 1)),
            done(write(0, &[3])),
            is(COMMIT, Told::Pair(3, 1)),
            is(Call::Flush, Told::Count(0)),
            is(BEGIN, Told::Token(4)),
            done(range(0, 32 * 96)),
            is(SPOOL, Told::Pair(4, 32)),
            is(Call::Flush, Told::Count(32)),
            is(BEGIN, Told::Token(5)),
            done(range(0, 33 * 96)),
            // There is one too many for the spool too, but the log is asked first: 66 records live.
            no(SPOOL, StoreFault::Full(4)),
            // What waits is lost when the store is closed.
            is(BEGIN, Told::Token(5)),
            done(range(0, 1)),
            done(write(0, &[4])),
            is(SPOOL, Told::Pair(5, 1)),
            is(Call::Byte(0), Told::Byte(4)),
            is(Call::Reopen, Told::Pair(4, 0)),
            is(Call::Byte(0), Told::Byte(3)),
        ],
    )
}

#[test]
fn aborts(rt: HostRuntime) -> Result<(), Fail> {
    holds_anywhere(
        &rt,
        rt.alloc(),
        &[
            is(BEGIN, Told::Token(1)),
            done(range(10, 2)),
            done(write(10, &[7, 8])),
            is(COMMIT, Told::Pair(1, 1)),
            is(BEGIN, Told::Token(2)),
            done(range(11, 2)),
            done(write(11, &[1, 2])),
            is(Call::Byte(11), Told::Byte(1)),
            is(Call::Byte(12), Told::Byte(2)),
            done(ABORT),
            is(Call::Byte(10), Told::Byte(7)),
            is(Call::Byte(11), Told::Byte(8)),
            is(Call::Byte(12), Told::Byte(0)),
            is(BEGIN, Told::Token(2)),
            no(write(11, &[1]), StoreFault::Undeclared(11)),
            done(ABORT),
        ],
    )
}

#[test]
fn stale_tokens(rt: HostRuntime) -> Result<(), Fail> {
    holds_anywhere(
        &rt,
        rt.alloc(),
        &[
            is(BEGIN, Told::Token(1)),
            done(range(0, 1)),
            is(SPOOL, Told::Pair(1, 1)),
            is(BEGIN, Told::Token(2)),
            // Token 2 stays behind, beside that of the next store's transaction.
            done(Call::Swap),
            is(Call::Reopen, Told::Pair(0, 0)),
            is(BEGIN, Told::Token(1)),
            done(Call::Swap),
            no(range(0, 1), StoreFault::Stranger(2)),
            no(write(0, &[1]), StoreFault::Stranger(2)),
            no(COMMIT, StoreFault::Stranger(2)),
            is(COMMIT, Told::Idle),
            done(Call::Swap),
            done(range(0, 1)),
            is(COMMIT, Told::Pair(1, 1)),
            // With no transaction open no token fits, and abort spends it too.
            is(BEGIN, Told::Token(2)),
            is(Call::Reopen, Told::Pair(1, 0)),
            no(range(0, 1), StoreFault::Stranger(2)),
            no(ABORT, StoreFault::Stranger(2)),
            is(ABORT, Told::Idle),
            // A token fits by its number alone.
            is(BEGIN, Told::Token(2)),
            done(Call::Swap),
            is(Call::Reopen, Told::Pair(1, 0)),
            is(BEGIN, Told::Token(2)),
            done(Call::Swap),
            done(range(0, 1)),
            is(COMMIT, Told::Pair(2, 1)),
            done(Call::Swap),
            no(COMMIT, StoreFault::Stranger(2)),
        ],
    )
}

// A part of transaction 1.
fn part(serial: u64, page: u16, offset: u16, last: bool, bytes: &[u8]) -> Record<'_> {
    Record::Part {
        head: head(serial, 1, 1),
        page,
        offset,
        last,
        bytes,
    }
}

fn head(serial: u64, low: u64, ordinal: u64) -> Head {
    Head {
        serial,
        low,
        ordinal,
    }
}

// A transaction over the bound of two pages, and a truncation, as they stand on the card.
#[test]
fn sectors(rt: HostRuntime) -> Result<(), Fail> {
    let mut card = Card::blank(rt.alloc(), 224, 1)?;
    let _ = holds_new(
        &rt,
        card.device()?,
        &[
            is(BEGIN, Told::Token(1)),
            done(range(90, 12)),
            done(write(90, &[1, 2, 3, 4, 5, 6, 7, 8, 9, 10, 11, 12])),
            is(COMMIT, Told::Pair(1, 2)),
            is(Call::Truncate, Told::Count(2)),
        ],
    );
    let mut page = [[0u8; 96]; 2];
    page[0][90..96].copy_from_slice(&[1, 2, 3, 4, 5, 6]);
    page[1][0..6].copy_from_slice(&[7, 8, 9, 10, 11, 12]);
    let table = [
        (1, Record::mark(head(1, 1, 0))),
        (2, part(2, 0, 90, false, &[1, 2, 3, 4, 5, 6])),
        (3, part(3, 1, 0, true, &[7, 8, 9, 10, 11, 12])),
        (4, whole(4, 0, &page[0])),
        (5, whole(5, 1, &page[1])),
        (6, Record::mark(head(6, 6, 1))),
    ];
    for (place, record) in table {
        assert_eq!(rt;
            record::read(sector(&card, place)?, place, 160),
            Some(record)
        );
    }
    for (home, bytes) in [(160, page[0]), (161, page[1]), (162, [0u8; 96])] {
        let mut expected = [0u8; SECTOR];
        expected[..96].copy_from_slice(&bytes);
        assert_eq!(rt; *sector(&card, home)?, expected);
    }
    Ok(())
}

fn sector(card: &Card, place: usize) -> Result<&[u8; SECTOR], Fail> {
    Ok(card.sectors.get(place).ok_or("no such sector")?)
}

fn whole(serial: u64, page: u16, bytes: &[u8]) -> Record<'_> {
    Record::Page {
        head: head(serial, 1, 1),
        page,
        bytes,
    }
}

// Puts a record into its place of a log of 160 sectors.
fn lay(card: &mut Card, record: Record) -> Result<(), Fail> {
    let serial = record.head().serial;
    let mut sector = [0u8; SECTOR];
    let _ = record::write(record, &mut sector);
    *card
        .sectors
        .get_mut((serial % 160) as usize)
        .ok_or("no such sector")? = sector;
    Ok(())
}

// Row 14: serials end at 2^63 - 1, the last that ends in ff here, and 65 of them stay in reserve.
#[test]
fn ends_of_serials(rt: HostRuntime) -> Result<(), Fail> {
    let mut card = Card::blank(rt.alloc(), 224, 1)?;
    let last = 0x7fff_ffff_ffff_ffbd;
    lay(&mut card, Record::mark(head(last, last, last - 1)))?;
    let _ = holds_old(
        &rt,
        card.device()?,
        Told::Pair(last - 1, 0),
        &[
            is(BEGIN, Told::Token(last)),
            done(range(95, 2)),
            no(COMMIT, StoreFault::Serials(last)),
            is(BEGIN, Told::Token(last)),
            done(range(0, 1)),
            is(COMMIT, Told::Pair(last, 1)),
            is(BEGIN, Told::Token(0x7fff_ffff_ffff_ffbe)),
            done(range(0, 1)),
            no(SPOOL, StoreFault::Serials(0x7fff_ffff_ffff_ffbe)),
            is(BEGIN, Told::Token(0x7fff_ffff_ffff_ffbe)),
            is(COMMIT, Told::Pair(last, 0)),
            // The reserve is there for this: a page record and a mark.
            is(Call::Truncate, Told::Count(1)),
            no(Call::Truncate, StoreFault::Serials(0x7fff_ffff_ffff_ffc0)),
            is(Call::Reopen, Told::Pair(last, 0)),
        ],
    );
    Ok(())
}

// A card whose log has a mark and then transactions below this serial, all on eight bytes of page 3.
fn crowded_card(heap: Global, next: u64) -> Result<Card, Fail> {
    let mut card = Card::blank(heap, 224, 1)?;
    lay(&mut card, Record::mark(head(1, 1, 0)))?;
    // Serials, which index nothing.
    for serial in 2..next {
        let record = Record::Part {
            head: head(serial, 1, serial - 1),
            page: 3,
            offset: 8,
            last: true,
            bytes: &[9; 8],
        };
        lay(&mut card, record)?;
    }
    Ok(card)
}

// Row 15 of a truncation, which needs room for a page record and a mark.
#[test]
fn crowded_logs(rt: HostRuntime) -> Result<(), Fail> {
    let table = [
        (159, 157, Ok(Told::Count(1)), Ok(Told::Count(0))),
        (160, 158, Err(StoreFault::Full(1)), Err(StoreFault::Full(1))),
        (161, 159, Err(StoreFault::Full(2)), Err(StoreFault::Full(2))),
    ];
    for (next, found, first, second) in table {
        let mut card = crowded_card(rt.alloc(), next)?;
        let _ = holds_old(
            &rt,
            card.device()?,
            Told::Pair(found, 0),
            &[
                (Call::Truncate, first),
                (Call::Truncate, second),
                is(Call::Byte(296), Told::Byte(9)),
                is(Call::Reopen, Told::Pair(found, 0)),
                is(Call::Byte(296), Told::Byte(9)),
            ],
        );
    }
    Ok(())
}

// A truncation of two pages writes six sectors: what waits, two page records, two homes and a mark. Power fails in one
// of them after so many, by this code of the plan; the store is opened, finds this many transactions, and truncates
// this many pages.
fn cut_truncation(
    rt: &impl Abort,
    heap: Global,
    before: usize,
    code: u8,
    found: u64,
    dirty: usize,
) -> Result<(), Fail> {
    let mut card = Card::blank(heap, 224, 1)?;
    // A format writes 225 sectors, and the first commit two.
    card.plan = vec![in heap; 0u8; 227usize.saturating_add(before)]?;
    card.plan.push(code)?;
    let byte = if found == 1 { 5 } else { 6 };
    let _ = holds_new(
        rt,
        card.device()?,
        &[
            is(BEGIN, Told::Token(1)),
            done(range(90, 12)),
            done(write(90, &[5; 12])),
            is(COMMIT, Told::Pair(1, 2)),
            is(BEGIN, Told::Token(2)),
            done(range(100, 1)),
            done(write(100, &[6])),
            is(SPOOL, Told::Pair(2, 1)),
            no(Call::Truncate, StoreFault::Device(DeviceFault::Power(1))),
            no(Call::Flush, StoreFault::Device(DeviceFault::Power(0))),
            is(Call::Reopen, Told::Pair(found, 0)),
            is(Call::Byte(90), Told::Byte(5)),
            is(Call::Byte(100), Told::Byte(byte)),
            is(Call::Truncate, Told::Count(dirty)),
            is(Call::Reopen, Told::Pair(found, 0)),
            is(Call::Byte(101), Told::Byte(5)),
            is(Call::Byte(100), Told::Byte(byte)),
        ],
    );
    Ok(())
}

#[test]
fn cut_truncations(rt: HostRuntime) -> Result<(), Fail> {
    // What waited is found once its record stands, although no barrier came.
    cut_truncation(&rt, rt.alloc(), 0, 1, 1, 2)?;
    cut_truncation(&rt, rt.alloc(), 0, 2, 2, 2)?;
    cut_truncation(&rt, rt.alloc(), 0, 3, 1, 2)?;
    for before in 1..5usize {
        cut_truncation(&rt, rt.alloc(), before, 1, 2, 2)?;
        cut_truncation(&rt, rt.alloc(), before, 2, 2, 2)?;
        cut_truncation(&rt, rt.alloc(), before, 3, 2, 2)?;
    }
    // Once the mark stands, no page is dirty.
    cut_truncation(&rt, rt.alloc(), 5, 1, 2, 2)?;
    cut_truncation(&rt, rt.alloc(), 5, 2, 2, 0)?;
    cut_truncation(&rt, rt.alloc(), 5, 3, 2, 2)
}
