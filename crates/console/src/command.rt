// A line of the console as a command.
use crate::words::{LineFault, bytes, codes, number, size_to, tag};
use std::alloc::Global;

// One of the two cards.
#[derive(Clone, Copy)]
pub enum Side {
    Left,
    Right,
}

// A pile of devices over the cards.
#[derive(Clone, Copy)]
pub enum Shape {
    Battery(u8),
    Bench(Side),
    Mirror,
    Cache(Side),
    CacheMirror,
    MirrorCache,
}

// What is done to a card while no pile is in use.
#[derive(Drop)]
pub enum CardCommand {
    Blank(usize),
    Poke(usize, Vec<u8>),
    Spoil(usize),
    Plan(Vec<u8>),
    Origin(u8),
    Show(usize),
    Dump,
}

// A call of the device that is in use. A read has its buffer.
#[derive(Drop)]
pub enum DeviceCommand {
    Count,
    Read(usize, Vec<u8>),
    Write(usize, Vec<u8>),
    Barrier,
    Restart,
}

// What makes a store or a ledger on the pile.
#[derive(Clone, Copy)]
pub enum Start {
    Format,
    Open,
    Make,
    OpenLedger,
}

// Whether a commit, or a change of the ledger, writes its records, or leaves them in the spool.
#[derive(Clone, Copy)]
pub enum How {
    Flush,
    Spool,
}

impl How {
    pub fn is_flush(self) -> bool {
        matches!(self, How::Flush)
    }
}

// A call of the store that is open. A read has its buffer.
#[derive(Drop)]
pub enum StoreCommand {
    Begin,
    SetRange(usize, usize),
    WriteRange(usize, Vec<u8>),
    ReadRange(usize, Vec<u8>),
    Commit(How),
    Abort,
    Flush,
    Truncate,
}

// A call of the ledger that is open.
#[derive(Clone, Copy)]
pub enum LedgerCommand {
    Issue(u16, u64, How),
    Move(u16, u16, u64, How),
    Visit([u8; 8], u16, How),
    Enrol([u8; 8], u16, How),
    Drop([u8; 8], How),
    Collect(u16, How),
    Find([u8; 8]),
    Balance(u16),
    Flush,
    Truncate,
}

#[derive(Drop)]
pub enum Command {
    Card(Side, CardCommand),
    Use(Shape),
    End,
    Device(DeviceCommand),
    Start(Start),
    Store(StoreCommand),
    Ledger(LedgerCommand),
    Close,
}

// The most sectors that a card may have, and the longest buffers that a read of a sector and of memory may be given.
const CARD_MOST: usize = 2000;

const READ_MOST: usize = 256;

const READ_RANGE_MOST: usize = 8192;

fn side_of(word: &str) -> Result<Side, LineFault> {
    match word {
        "left" => Ok(Side::Left),
        "right" => Ok(Side::Right),
        _ => Err(LineFault::Bad),
    }
}

fn pile(words: &[&str]) -> Result<Shape, LineFault> {
    match words {
        ["battery", origin] => Ok(Shape::Battery(number(origin)?)),
        ["bench", name] => Ok(Shape::Bench(side_of(name)?)),
        ["mirror"] => Ok(Shape::Mirror),
        ["cache", name] => Ok(Shape::Cache(side_of(name)?)),
        ["cache-mirror"] => Ok(Shape::CacheMirror),
        ["mirror-cache"] => Ok(Shape::MirrorCache),
        _ => Err(LineFault::Bad),
    }
}

// What is to be done to a card, from the words without the card's name.
fn card_command(heap: Global, verb: &str, rest: &[&str]) -> Result<CardCommand, LineFault> {
    match (verb, rest) {
        ("card", [sectors]) => Ok(CardCommand::Blank(size_to(sectors, CARD_MOST)?)),
        ("poke", [sector, hex]) => Ok(CardCommand::Poke(number(sector)?, bytes(heap, hex)?)),
        ("spoil", [sector]) => Ok(CardCommand::Spoil(number(sector)?)),
        ("plan", [list]) => Ok(CardCommand::Plan(codes(heap, list)?)),
        ("origin", [origin]) => Ok(CardCommand::Origin(number(origin)?)),
        ("show", [sector]) => Ok(CardCommand::Show(number(sector)?)),
        ("dump", []) => Ok(CardCommand::Dump),
        _ => Err(LineFault::Bad),
    }
}

// What is to be done while a pile is in use, or to get there and back.
fn pile_command(heap: Global, words: &[&str]) -> Result<Command, LineFault> {
    match words {
        ["use", rest @ ..] => Ok(Command::Use(pile(rest)?)),
        ["end"] => Ok(Command::End),
        ["format"] => Ok(Command::Start(Start::Format)),
        ["open"] => Ok(Command::Start(Start::Open)),
        ["make"] => Ok(Command::Start(Start::Make)),
        ["open-ledger"] => Ok(Command::Start(Start::OpenLedger)),
        ["close"] => Ok(Command::Close),
        ["count" | "read" | "write" | "barrier" | "restart", ..] => {
            Ok(Command::Device(device_command(heap, words)?))
        }
        ["begin" | "set-range" | "write-range" | "read-range", ..]
        | ["commit" | "abort" | "flush" | "truncate", ..] => {
            Ok(Command::Store(store_command(heap, words)?))
        }
        _ => Ok(Command::Ledger(ledger_command(heap, words)?)),
    }
}

// A buffer of the length that a word tells, up to `most`.
fn buffer(heap: Global, length: &str, most: usize) -> Result<Vec<u8>, LineFault> {
    Ok(vec![in heap; 0u8; size_to(length, most)?]?)
}

fn device_command(heap: Global, words: &[&str]) -> Result<DeviceCommand, LineFault> {
    match words {
        ["count"] => Ok(DeviceCommand::Count),
        ["read", sector, length] => {
            let sector = number(sector)?;
            let buffer = buffer(heap, length, READ_MOST)?;
            Ok(DeviceCommand::Read(sector, buffer))
        }
        ["write", sector, hex] => Ok(DeviceCommand::Write(number(sector)?, bytes(heap, hex)?)),
        ["barrier"] => Ok(DeviceCommand::Barrier),
        ["restart"] => Ok(DeviceCommand::Restart),
        _ => Err(LineFault::Bad),
    }
}

fn how_of(word: &str) -> Result<How, LineFault> {
    match word {
        "flush" => Ok(How::Flush),
        "spool" => Ok(How::Spool),
        _ => Err(LineFault::Bad),
    }
}

fn store_command(heap: Global, words: &[&str]) -> Result<StoreCommand, LineFault> {
    match words {
        ["begin"] => Ok(StoreCommand::Begin),
        ["set-range", start, length] => Ok(StoreCommand::SetRange(number(start)?, number(length)?)),
        ["write-range", start, hex] => {
            Ok(StoreCommand::WriteRange(number(start)?, bytes(heap, hex)?))
        }
        ["read-range", start, length] => {
            let start = number(start)?;
            let buffer = buffer(heap, length, READ_RANGE_MOST)?;
            Ok(StoreCommand::ReadRange(start, buffer))
        }
        ["commit", how] => Ok(StoreCommand::Commit(how_of(how)?)),
        ["abort"] => Ok(StoreCommand::Abort),
        ["flush"] => Ok(StoreCommand::Flush),
        ["truncate"] => Ok(StoreCommand::Truncate),
        _ => Err(LineFault::Bad),
    }
}

fn ledger_command(heap: Global, words: &[&str]) -> Result<LedgerCommand, LineFault> {
    match words {
        ["issue", account, amount, how] => Ok(LedgerCommand::Issue(
            number(account)?,
            number(amount)?,
            how_of(how)?,
        )),
        ["move", payer, payee, amount, how] => Ok(LedgerCommand::Move(
            number(payer)?,
            number(payee)?,
            number(amount)?,
            how_of(how)?,
        )),
        ["visit", id, guard, how] => Ok(LedgerCommand::Visit(
            tag(heap, id)?,
            number(guard)?,
            how_of(how)?,
        )),
        ["enrol", id, account, how] => Ok(LedgerCommand::Enrol(
            tag(heap, id)?,
            number(account)?,
            how_of(how)?,
        )),
        ["drop", id, how] => Ok(LedgerCommand::Drop(tag(heap, id)?, how_of(how)?)),
        ["collect", account, how] => Ok(LedgerCommand::Collect(number(account)?, how_of(how)?)),
        ["find", id] => Ok(LedgerCommand::Find(tag(heap, id)?)),
        ["balance", account] => Ok(LedgerCommand::Balance(number(account)?)),
        ["ledger-flush"] => Ok(LedgerCommand::Flush),
        ["ledger-truncate"] => Ok(LedgerCommand::Truncate),
        _ => Err(LineFault::Bad),
    }
}

// What a line says; none where it is empty or a remark. Bytes that are no text are no command.
pub fn parse(heap: Global, line: &[u8]) -> Result<Option<Command>, LineFault> {
    if let [] | [b'#', ..] = line {
        return Ok(None);
    }
    let text = std::str::from_utf8(line).map_err(|_| LineFault::Bad)?;
    let words: Vec<&str> = text.split(' ').collect(heap)?;
    if let [verb, name, rest @ ..] = words.as_slice()
        && let Ok(side) = side_of(name)
    {
        return Ok(Some(Command::Card(side, card_command(heap, verb, rest)?)));
    }
    Ok(Some(pile_command(heap, words.as_slice())?))
}
