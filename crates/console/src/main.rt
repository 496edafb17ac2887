// The bench console: replays calls of devices, stores and ledgers from standard input, a command a line, an answer
// a line.

#![tactic(auto)]

use battery::Battery;
use cache::Cache;
use device::{Device, DeviceFault};
use mirror::Mirror;

mod answer;
mod card;
mod command;
mod desk;
mod held;
mod opened;
mod serve;
mod words;

use answer::Refusal;
use card::Cards;
use command::{Command, Shape};
use desk::Desk;
use serve::put_in_use;
use words::LineFault;

// How many sectors a card has at first.
const CARD_SECTORS: usize = 224;

// A cache over any device, and below a mirror of two: where the device is named, with the bytes that it
// borrows, a cache gets no proof.
fn use_cache<D: Device + Drop>(
    desk: &mut Desk,
    device: Result<D, DeviceFault>,
) -> anyhow::Result<()> {
    put_in_use(desk, device.map(Cache::new))
}

fn use_caches<L: Device + Drop, R: Device + Drop>(
    desk: &mut Desk,
    devices: Result<(L, R), DeviceFault>,
) -> anyhow::Result<()> {
    put_in_use(
        desk,
        devices.map(|(l, r)| Mirror::new(Cache::new(l), Cache::new(r))),
    )
}

// Puts a pile together from the cards, and serves it. A match, since each shape is a type of its own.
fn use_shape(desk: &mut Desk, cards: &mut Cards, shape: Shape) -> anyhow::Result<()> {
    match shape {
        Shape::Battery(origin) => put_in_use(desk, Ok(Battery::new(origin))),
        Shape::Bench(side) => put_in_use(desk, cards.device(side)),
        Shape::Cache(side) => use_cache(desk, cards.device(side)),
        Shape::Mirror => put_in_use(desk, cards.devices().map(|(l, r)| Mirror::new(l, r))),
        Shape::CacheMirror => use_cache(desk, cards.devices().map(|(l, r)| Mirror::new(l, r))),
        Shape::MirrorCache => use_caches(desk, cards.devices()),
    }
}

// Does what a command says while no pile is in use.
fn obey(desk: &mut Desk, cards: &mut Cards, command: Command) -> anyhow::Result<()> {
    match command {
        Command::Card(side, command) => match cards.obey(desk.heap(), side, command) {
            Ok(answer) => desk.say(&answer),
            Err(fault @ LineFault::Bad) => desk.say(&fault),
            Err(fault) => Err(fault.into()),
        },
        Command::Use(shape) => use_shape(desk, cards, shape),
        // Calls of a device, a store or a ledger, and the ends of what is not there.
        _other => desk.say(&Refusal::NotNow),
    }
}

// Works through the input.
fn work(desk: &mut Desk, cards: &mut Cards) -> anyhow::Result<()> {
    // Counted, as in `opened::hold`.
    for _ in 0..u64::MAX {
        let Some(command) = desk.next_command()? else {
            return Ok(());
        };
        obey(desk, cards, command)?;
    }
    Ok(())
}

fn main(rt: HostRuntime) -> anyhow::Result<()> {
    let mut cards = Cards::new(rt.alloc(), CARD_SECTORS)?;
    let mut desk = Desk::new(&rt)?;
    let outcome = work(&mut desk, &mut cards);
    desk.end();
    outcome
}
