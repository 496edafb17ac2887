// A table for each thing that a ledger promises, its answers worked out by hand.
use super::*;
use battery::Battery;
use cards::Card;
use device::{DeviceFault, SECTOR};
use record::{Head, Record};
use std::alloc::Global;
use std::process::Abort;
use std::test::Fail;
use transactions::{Store, StoreFault};

type Row = (Call, Answer);

// Two tags of bucket 4.
const FIRST: [u8; 8] = [1, 2, 3, 4, 5, 6, 7, 8];

const SECOND: [u8; 8] = [8, 7, 6, 5, 4, 3, 2, 1];

// The largest total.
const MOST: u64 = 0x7fff_ffff_ffff_ffff;

// The call answers this.
fn is(call: Call, told: Told) -> Row {
    (call, Ok(told))
}

// The call is refused.
fn no(call: Call, fault: LedgerFault) -> Row {
    (call, Err(fault))
}

// The change is flushed, and has this ordinal.
fn kept(change: Change, ordinal: u64) -> Row {
    is(Call::Keep(change), Told::Ordinal(ordinal))
}

// The change is refused.
fn refused(change: Change, fault: LedgerFault) -> Row {
    no(Call::Keep(change), fault)
}

fn has(account: u16, balance: u64) -> Row {
    is(Call::Balance(account), Told::Balance(balance))
}

fn owned(tag: [u8; 8], account: Option<u16>) -> Row {
    is(Call::Find(tag), Told::Owner(account))
}

// Collecting takes this entry off.
fn collects(account: u16, ordinal: u64, amount: u64, payee: u16) -> Row {
    is(
        Call::Keep(Change::Collect(account)),
        Told::Collected(ordinal, Entry { amount, payee }),
    )
}

// Makes the calls of a table in turn, and holds each answer to the one beside it.
fn holds<D: Device>(rt: &impl Abort, ledger: Ledger<D>, table: &[Row]) -> D {
    let mut ledger = ledger;
    for (call, answer) in table {
        let (next, told) = play(ledger, *call);
        ledger = next;
        assert_eq!(rt; told, *answer);
    }
    ledger.close()
}

// The same on a new ledger.
fn holds_new<D: Device>(rt: &impl Abort, device: D, table: &[Row]) -> D {
    let (ledger, made) = Ledger::make(device);
    assert_eq!(rt; made, Ok(()));
    holds(rt, ledger, table)
}

// The same on what a device holds, which opens so.
fn holds_old<D: Device>(rt: &impl Abort, device: D, opened: Answer, table: &[Row]) -> D {
    let (ledger, answer) = open(device);
    assert_eq!(rt; answer, opened);
    holds(rt, ledger, table)
}

// A new ledger in battery memory, and one on a card, both with a log of 160 sectors.
fn holds_anywhere(rt: &impl Abort, heap: Global, table: &[Row]) -> Result<(), Fail> {
    let _ = holds_new(rt, Battery::new(7), table);
    let mut card = Card::blank(heap, 224, 1)?;
    let _ = holds_new(rt, card.device()?, table);
    Ok(())
}

#[test]
fn balances(rt: HostRuntime) -> Result<(), Fail> {
    holds_anywhere(
        &rt,
        rt.alloc(),
        &[
            kept(Change::Issue(1, 20), 2),
            refused(Change::Transfer(1, 64, 21), LedgerFault::Short(20)),
            has(1, 20),
            kept(Change::Transfer(1, 64, 20), 3),
            has(1, 0),
            has(64, 20),
            refused(Change::Transfer(1, 64, 1), LedgerFault::Short(0)),
            is(Call::Reopen, Told::Pair(3, 0)),
            has(1, 0),
            has(64, 20),
        ],
    )
}

#[test]
fn totals(rt: HostRuntime) -> Result<(), Fail> {
    holds_anywhere(
        &rt,
        rt.alloc(),
        &[
            refused(Change::Issue(1, MOST + 1), LedgerFault::Total(0)),
            refused(Change::Issue(1, u64::MAX), LedgerFault::Total(0)),
            kept(Change::Issue(1, MOST - 1), 2),
            refused(Change::Issue(2, 2), LedgerFault::Total(MOST - 1)),
            kept(Change::Issue(2, 1), 3),
            refused(Change::Issue(3, 1), LedgerFault::Total(MOST)),
            // All of it may lie with one account.
            kept(Change::Transfer(1, 2, MOST - 1), 4),
            has(2, MOST),
            is(Call::Reopen, Told::Pair(4, 0)),
            refused(Change::Issue(2, 1), LedgerFault::Total(MOST)),
        ],
    )
}

// The later tag of a bucket stands in front of the earlier one.
#[test]
fn tags_of_one_bucket(rt: HostRuntime) -> Result<(), Fail> {
    holds_anywhere(
        &rt,
        rt.alloc(),
        &[
            kept(Change::Enrol(FIRST, 1), 2),
            kept(Change::Enrol(SECOND, 2), 3),
            owned(FIRST, Some(1)),
            owned(SECOND, Some(2)),
            // The one behind is dropped.
            kept(Change::DropTag(FIRST), 4),
            owned(FIRST, None),
            owned(SECOND, Some(2)),
            // It comes to stand in front, and is dropped there.
            kept(Change::Enrol(FIRST, 3), 5),
            owned(FIRST, Some(3)),
            kept(Change::DropTag(FIRST), 6),
            owned(FIRST, None),
            owned(SECOND, Some(2)),
            refused(Change::DropTag(FIRST), LedgerFault::Unknown(4)),
            is(Call::Reopen, Told::Pair(6, 0)),
            owned(FIRST, None),
            owned(SECOND, Some(2)),
        ],
    )
}

#[test]
fn entries(rt: HostRuntime) -> Result<(), Fail> {
    holds_anywhere(
        &rt,
        rt.alloc(),
        &[
            kept(Change::Issue(1, 20), 2),
            kept(Change::Enrol(FIRST, 1), 3),
            kept(Change::Transfer(1, 2, 3), 4),
            kept(Change::Transfer(1, 64, 4), 5),
            kept(Change::Visit(FIRST, 2), 6),
            // The last one that was paid stands in front.
            collects(1, 7, 1, 2),
            collects(1, 8, 4, 64),
            is(Call::Reopen, Told::Pair(8, 0)),
            collects(1, 9, 3, 2),
            refused(Change::Collect(1), LedgerFault::NoEntry(1)),
            refused(Change::Collect(2), LedgerFault::NoEntry(2)),
            // Collecting pays nothing.
            has(1, 12),
            has(2, 4),
            has(64, 4),
        ],
    )
}

// Each call's refusals in their order, as each is mended: accounts, tags, payers, amounts, balances.
#[test]
fn refusals(rt: HostRuntime) -> Result<(), Fail> {
    holds_anywhere(
        &rt,
        rt.alloc(),
        &[
            refused(Change::Transfer(0, 65, 0), LedgerFault::Account(0)),
            refused(Change::Transfer(1, 65, 0), LedgerFault::Account(65)),
            refused(Change::Transfer(1, 1, 0), LedgerFault::Same(1)),
            refused(Change::Transfer(1, 2, 0), LedgerFault::Nothing(1)),
            refused(Change::Transfer(1, 2, 1), LedgerFault::Short(0)),
            refused(Change::Issue(65, 0), LedgerFault::Account(65)),
            refused(Change::Issue(64, 0), LedgerFault::Nothing(64)),
            refused(Change::Visit(FIRST, 0), LedgerFault::Account(0)),
            refused(Change::Visit(FIRST, 1), LedgerFault::Unknown(4)),
            refused(Change::DropTag(FIRST), LedgerFault::Unknown(4)),
            refused(Change::Enrol(FIRST, 65), LedgerFault::Account(65)),
            kept(Change::Enrol(FIRST, 1), 2),
            refused(Change::Enrol(FIRST, 65), LedgerFault::Account(65)),
            refused(Change::Enrol(FIRST, 2), LedgerFault::Present(1)),
            refused(Change::Visit(FIRST, 1), LedgerFault::Same(1)),
            refused(Change::Visit(FIRST, 2), LedgerFault::Short(0)),
            refused(Change::Collect(65), LedgerFault::Account(65)),
            refused(Change::Collect(64), LedgerFault::NoEntry(64)),
            no(Call::Balance(65), LedgerFault::Account(65)),
            has(64, 0),
            is(Call::Flush, Told::Count(0)),
            is(Call::Reopen, Told::Pair(2, 0)),
        ],
    )
}

// A tag with this first byte.
fn tag(first: u8) -> [u8; 8] {
    [first, 0, 0, 0, 0, 0, 0, 0]
}

// All 200 cells hold tags. The log has room for that if it is of 1,024 sectors.
#[test]
fn a_full_directory(rt: HostRuntime) -> Result<(), Fail> {
    let mut table = vec![in rt.alloc(); kept(Change::Issue(1, 20), 2)]?;
    // First bytes of tags, which index nothing.
    for first in 1..=200u8 {
        table.push(kept(Change::Enrol(tag(first), 1), u64::from(first) + 2))?;
    }
    table.extend_from_slice(&[
        refused(Change::Enrol(FIRST, 64), LedgerFault::NoCell(64)),
        refused(Change::Transfer(1, 2, 21), LedgerFault::Short(20)),
        refused(Change::Transfer(1, 2, 20), LedgerFault::NoCell(1)),
        refused(Change::Visit(tag(7), 2), LedgerFault::NoCell(1)),
        is(Call::Reopen, Told::Pair(202, 0)),
        owned(tag(1), Some(1)),
        owned(tag(200), Some(1)),
        // The cell that is freed is the one that is taken.
        kept(Change::DropTag(tag(9)), 203),
        kept(Change::Transfer(1, 2, 20), 204),
        refused(Change::Enrol(FIRST, 64), LedgerFault::NoCell(64)),
        collects(1, 205, 20, 2),
        kept(Change::Enrol(FIRST, 64), 206),
        owned(FIRST, Some(64)),
        is(Call::Reopen, Told::Pair(206, 0)),
    ])?;
    let mut card = Card::blank(rt.alloc(), 1088, 1)?;
    let _ = holds_new(&rt, card.device()?, table.as_slice());
    Ok(())
}

// Row 16: the spool has room for 32 records, and an issue is of two: the total's and the balance's. The ledger's own
// refusals come first, and the ledger stays on.
#[test]
fn a_full_spool(rt: HostRuntime) -> Result<(), Fail> {
    let full = LedgerFault::Store(StoreFault::SpoolFull(2));
    let mut table = Vec::new(rt.alloc());
    for ordinal in 2..18u64 {
        table.push(is(Call::Spool(Change::Issue(1, 1)), Told::Ordinal(ordinal)))?;
    }
    table.extend_from_slice(&[
        no(Call::Spool(Change::Issue(1, 0)), LedgerFault::Nothing(1)),
        no(Call::Spool(Change::Issue(1, 1)), full),
        has(1, 16),
        // What is flushed needs no room in it.
        kept(Change::Issue(1, 1), 18),
        has(1, 17),
        is(Call::Flush, Told::Count(0)),
        is(Call::Reopen, Told::Pair(18, 0)),
        has(1, 17),
    ])?;
    holds_anywhere(&rt, rt.alloc(), table.as_slice())
}

// Row 15: after a make 53 of 160 places live, and 42 more may come.
#[test]
fn a_full_log(rt: HostRuntime) -> Result<(), Fail> {
    let full = LedgerFault::Store(StoreFault::Full(2));
    let mut table = Vec::new(rt.alloc());
    for ordinal in 2..23u64 {
        table.push(kept(Change::Issue(1, 1), ordinal))?;
    }
    table.extend_from_slice(&[
        refused(Change::Transfer(1, 2, 22), LedgerFault::Short(21)),
        refused(Change::Issue(1, 1), full),
        has(1, 21),
        is(Call::Truncate, Told::Count(52)),
        kept(Change::Issue(1, 1), 23),
        is(Call::Reopen, Told::Pair(23, 0)),
        has(1, 22),
    ])?;
    holds_anywhere(&rt, rt.alloc(), table.as_slice())
}

// Puts a mark into its place of a log of 160 sectors.
fn lay_mark(card: &mut Card, serial: u64, ordinal: u64) -> Result<(), Fail> {
    let head = Head {
        serial,
        low: serial,
        ordinal,
    };
    let mut sector = [0u8; SECTOR];
    let _ = record::write(Record::mark(head), &mut sector);
    *card
        .sectors
        .get_mut((serial % 160) as usize)
        .ok_or("no such sector")? = sector;
    Ok(())
}

// Row 14: serials end at 2^63 - 1, the last that ends in ff here, and 65 of them stay in reserve.
#[test]
fn ends_of_serials(rt: HostRuntime) -> Result<(), Fail> {
    let mut card = Card::blank(rt.alloc(), 224, 1)?;
    let _ = holds_new(
        &rt,
        card.device()?,
        &[
            kept(Change::Issue(1, 20), 2),
            is(Call::Truncate, Told::Count(52)),
        ],
    );
    let last = 0x7fff_ffff_ffff_ffbd;
    lay_mark(&mut card, last, 2)?;
    let end = LedgerFault::Store(StoreFault::Serials(last));
    let _ = holds_old(
        &rt,
        card.device()?,
        Ok(Told::Pair(2, 0)),
        &[
            refused(Change::Issue(1, 0), LedgerFault::Nothing(1)),
            refused(Change::Issue(1, 1), end),
            no(Call::Spool(Change::Issue(1, 1)), end),
            has(1, 20),
            is(Call::Reopen, Told::Pair(2, 0)),
            has(1, 20),
        ],
    );
    Ok(())
}

// Row 17: a card whose store is no ledger is refused, as is one without a log. The ledger is off then, and the store
// stays as it was.
#[test]
fn no_ledgers(rt: HostRuntime) -> Result<(), Fail> {
    let mut card = Card::blank(rt.alloc(), 224, 1)?;
    let off = LedgerFault::Store(StoreFault::Device(DeviceFault::Power(0)));
    let no_log = LedgerFault::Store(StoreFault::NoLog);
    let table = [
        no(Call::Balance(65), off),
        no(Call::Find(FIRST), off),
        refused(Change::Issue(65, 0), off),
        no(Call::Flush, off),
        no(Call::Truncate, off),
    ];
    let _ = holds_old(&rt, card.device()?, Err(no_log), &table);
    let (store, formatted) = Store::format(card.device()?);
    assert_eq!(rt; formatted, Ok(()));
    let device = holds_old(&rt, store.close(), Err(LedgerFault::NotLedger), &table);
    let (store, opened) = Store::open(device);
    assert_eq!(rt; opened, Ok((0, 0)));
    let _ = store.close();
    Ok(())
}
