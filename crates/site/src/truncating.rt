// The third part of the story: a store on a pair of cards, worked by a script while power fails in its truncations and in
// an opening. Then the cards are moved into a fresh controller.
use crate::reopening::StoreRefusal;
use crate::{Refusal, SECTORS, devices, say, text_of};
use cache::Cache;
use cards::Card;
use device::Device;
use law::{Answer, Call, work};
use mirror::Mirror;
use std::alloc::{AllocError, Global};
use transactions::{Store, StoreFault, Token};

// Where the line lies: over the bound of two pages, so that it becomes two records.
const PLACE: usize = 84;

const TWELVE: &[u8] = b"tag 4711: 12 visits left";

const ELEVEN: &[u8] = b"tag 4711: 11 visits left";

// How long each line is.
const LENGTH: usize = 24;

const CALLS: usize = 24;

const BEGIN: Call<'static> = Call::Begin { place: 0 };

const DECLARE: Call<'static> = Call::SetRange {
    place: 0,
    start: PLACE,
    size: LENGTH,
};

// The line is read into one half of the buffer, and later into the other.
const READ: Call<'static> = Call::Read {
    start: PLACE,
    first: 0,
    end: LENGTH,
};

const READ_AGAIN: Call<'static> = Call::Read {
    start: PLACE,
    first: LENGTH,
    end: 2 * LENGTH,
};

// Writes a line.
fn write(bytes: &'static [u8]) -> Call<'static> {
    Call::Write {
        place: 0,
        start: PLACE,
        bytes,
    }
}

fn commit(flush: bool) -> Call<'static> {
    Call::Commit { place: 0, flush }
}

// Two transactions, of which the second waits; and once it is lost, the same again.
fn script() -> [Call<'static>; CALLS] {
    [
        Call::Format,
        BEGIN,
        DECLARE,
        write(TWELVE),
        commit(true),
        BEGIN,
        DECLARE,
        write(ELEVEN),
        commit(false),
        Call::Truncate,
        Call::Close,
        Call::Open,
        Call::Close,
        Call::Open,
        READ,
        BEGIN,
        DECLARE,
        write(ELEVEN),
        commit(true),
        Call::Truncate,
        Call::Close,
        Call::Open,
        READ_AGAIN,
        Call::Truncate,
    ]
}

// Quotes a text that the store holds or is given.
fn quote(rt: &HostRuntime, before: &str, bytes: &[u8]) -> anyhow::Result<()> {
    match std::str::from_utf8(text_of(bytes)) {
        Ok(text) => println!(rt; "  {before} \"{text}\"")?,
        Err(_) => println!(rt; "  {before} no text")?,
    }
    Ok(())
}

fn tell_call(rt: &HostRuntime, call: Call) -> anyhow::Result<()> {
    match call {
        Call::Format => println!(rt; "a new store is made on two cards")?,
        Call::Open => println!(rt; "the store is opened")?,
        Call::Close => println!(rt; "the store is closed")?,
        Call::Begin { place: _ } => println!(rt; "a transaction begins")?,
        Call::SetRange {
            place: _,
            start,
            size,
        } => println!(rt; "  it declares {size} bytes from byte {start} on")?,
        Call::Write {
            place: _,
            start: _,
            bytes,
        } => return quote(rt, "it writes", bytes),
        Call::Read {
            start: _,
            first: _,
            end: _,
        } => println!(rt; "the line is read back")?,
        Call::Commit {
            place: _,
            flush: true,
        } => println!(rt; "  it is committed, and is to be kept")?,
        Call::Commit {
            place: _,
            flush: false,
        } => println!(rt; "  it is committed, and may wait")?,
        Call::Abort { place: _ } => println!(rt; "  it is aborted")?,
        Call::Flush => println!(rt; "what waits is written")?,
        Call::Truncate => println!(rt; "the log is truncated")?,
    }
    Ok(())
}

// Tells why a call was refused.
fn tell_refusal(rt: &HostRuntime, fault: StoreFault) -> anyhow::Result<()> {
    match fault {
        StoreFault::Device(fault) => say(rt, Err(Refusal(fault))),
        fault => say(rt, Err(StoreRefusal(fault))),
    }
}

fn tell_answer(rt: &HostRuntime, answer: Answer) -> anyhow::Result<()> {
    match answer {
        Answer::NotMade => println!(rt; "  that was not to be done")?,
        Answer::Opened(Ok((found, strays))) => {
            println!(rt; "  {found} transactions are found, {strays} strays were cleared")?
        }
        Answer::Committed(Ok((ordinal, records))) => {
            println!(rt; "  it is transaction {ordinal}, of {records} records")?
        }
        Answer::Flushed(Ok(records)) => println!(rt; "  {records} records were written")?,
        Answer::Truncated(Ok(pages)) => println!(rt; "  {pages} pages were written home")?,
        Answer::Closed | Answer::Begun(Ok(_)) => {}
        Answer::Formatted(Ok(())) | Answer::Declared(Ok(())) | Answer::Written(Ok(())) => {}
        Answer::Read(Ok(())) | Answer::Aborted(Ok(())) => {}
        Answer::Opened(Err(fault)) | Answer::Committed(Err(fault)) => {
            return tell_refusal(rt, fault);
        }
        Answer::Flushed(Err(fault)) | Answer::Truncated(Err(fault)) => {
            return tell_refusal(rt, fault);
        }
        Answer::Begun(Err(fault)) | Answer::Formatted(Err(fault)) => return tell_refusal(rt, fault),
        Answer::Declared(Err(fault)) | Answer::Written(Err(fault)) => {
            return tell_refusal(rt, fault);
        }
        Answer::Read(Err(fault)) | Answer::Aborted(Err(fault)) => return tell_refusal(rt, fault),
    }
    Ok(())
}

// Tells what each call answered, and what was read into the buffer.
fn tell_script(
    rt: &HostRuntime,
    calls: &[Call],
    answers: &[Answer],
    buffer: &[u8],
) -> anyhow::Result<()> {
    for (call, answer) in calls.iter().zip(answers.iter()) {
        tell_call(rt, *call)?;
        tell_answer(rt, *answer)?;
        if let (
            Call::Read {
                start: _,
                first,
                end,
            },
            Answer::Read(Ok(())),
        ) = (*call, *answer)
        {
            quote(rt, "the store says", buffer.get(first..end).unwrap_or(&[]))?;
        }
    }
    Ok(())
}

// A token may not be let go: one that the scripts left is spent on a store over the cards.
fn put_away<D: Device + Drop>(device: D, tokens: [Option<Token>; 1]) {
    let [left] = tokens;
    let (mut store, _opened) = Store::open(device);
    if let Some(token) = left {
        let _ = store.abort(token);
    }
    let _device = store.close();
}

// Works the script, and a further one on the cards that it gives back; and tells of both.
fn tell_store<D: Device + Drop>(rt: &HostRuntime, device: D) -> anyhow::Result<()> {
    let calls = script();
    let moved = [Call::Open, READ];
    let mut tokens: [Option<Token>; 1] = [None];
    let mut buffer = [0u8; 2 * LENGTH];
    let mut answers = [Answer::NotMade; CALLS];
    let mut line = [0u8; LENGTH];
    let mut opened = [Answer::NotMade; 2];
    let (device, _) = work(device, &calls, &mut tokens, &mut buffer, &mut answers);
    let (device, _) = work(device, &moved, &mut tokens, &mut line, &mut opened);
    put_away(device, tokens);
    tell_script(rt, &calls, &answers, &buffer)?;
    println!(rt; "the cards are moved into a fresh controller")?;
    tell_script(rt, &moved, &opened, &line)
}

// The pile is put together where its devices have no names, as the story's first one.
fn tell_pile<L: Device + Drop, R: Device + Drop>(
    rt: &HostRuntime,
    left: L,
    right: R,
) -> anyhow::Result<()> {
    tell_store(rt, Cache::new(Mirror::new(left, right)))
}

// A plan that lets so many writes go on before each of these codes.
pub fn plan(heap: Global, cuts: &[(usize, u8)]) -> Result<Vec<u8>, AllocError> {
    let mut plan = Vec::new(heap);
    for (writes, code) in cuts {
        let whole = vec![in heap; 0u8; *writes]?;
        plan.extend_from_slice(whole.as_slice())?;
        plan.push(*code)?;
    }
    Ok(plan)
}

// A card of each side is written 225 times by the format and twice by the first transaction. Then power fails in the
// truncation, as the right card is given the second of the records that wait; in the opening, as the left card is cleared of
// the first; and in the next truncation, as a page is written home on the left card.
pub fn tell_truncating(rt: &HostRuntime) -> anyhow::Result<()> {
    let mut left = Card::blank(rt.alloc(), SECTORS, 1)?;
    let mut right = Card::blank(rt.alloc(), SECTORS, 2)?;
    left.plan = plan(rt.alloc(), &[(228, 1), (5, 3)])?;
    right.plan = plan(rt.alloc(), &[(228, 3)])?;
    match devices(&mut left, &mut right) {
        Ok((l, r)) => tell_pile(rt, l, r),
        Err(fault) => say(rt, Err(Refusal(fault))),
    }
}
