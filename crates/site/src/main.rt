// A site controller's story, told as it happens: power fails on one card of a pair, and what is read back.

#![tactic(auto)]

use bench::Bench;
use cache::Cache;
use cards::Card;
use device::{Device, DeviceFault, SECTOR};
use mirror::Mirror;
use std::fmt;

mod ledger_story;
mod moving;
mod reopening;
mod truncating;

// Where the story keeps its line of text, and how many sectors a card has.
const PLACE: usize = 5;

pub const SECTORS: usize = 224;

// A line of text in a sector, with zeros after it.
fn sector_of(text: &[u8]) -> [u8; SECTOR] {
    let mut sector = [0u8; SECTOR];
    let size = text.len().min(SECTOR);
    sector[..size].copy_from_slice(&text[..size]);
    sector
}

// The text at the front of a sector, up to its first zero.
pub fn text_of(sector: &[u8]) -> &[u8] {
    match sector.iter().position(|b| *b == 0) {
        Some(end) => &sector[..end],
        None => sector,
    }
}

// A device's refusal as the story tells it.
#[derive(Clone, Copy)]
pub struct Refusal(pub DeviceFault);

impl fmt::Display for Refusal {
    fn fmt<W: fmt::Write>(&self, f: &mut fmt::Formatter<W>) -> fmt::Result {
        f.write_str(match self.0 {
            DeviceFault::Power(0) => "the cards are off",
            DeviceFault::Power(1) => "power failed while the left card was written",
            DeviceFault::Power(_) => "power failed while the right card was written",
            DeviceFault::Spoiled(_, _) => "the sector can't be read on either card",
            DeviceFault::Misaddressed(_, _) => "there is no such sector",
            DeviceFault::Unfit => "these cards don't fit the controller",
        })
    }
}

// Says what came of what was told last.
pub fn say<F: fmt::Display + Drop>(
    rt: &HostRuntime,
    outcome: Result<&str, F>,
) -> anyhow::Result<()> {
    match outcome {
        Ok(text) => println!(rt; "  {text}")?,
        Err(refusal) => println!(rt; "  {refusal}")?,
    }
    Ok(())
}

// Writes a line and makes a barrier, so that it is safe once the barrier succeeds.
fn keep<D: Device>(device: &mut D, text: &[u8]) -> Result<(), DeviceFault> {
    device.write(PLACE, &sector_of(text))?;
    device.barrier()
}

// Tells what became of a line that was to be kept.
fn tell_keeping<D: Device>(rt: &HostRuntime, device: &mut D, text: &str) -> anyhow::Result<()> {
    println!(rt; "writing \"{text}\" and waiting until both cards hold it")?;
    let kept = keep(device, text.as_bytes());
    say(rt, kept.map(|()| "both cards hold it").map_err(Refusal))
}

// Tells what is read back.
fn tell_reading<D: Device>(rt: &HostRuntime, device: &mut D) -> anyhow::Result<()> {
    let mut sector = [0u8; SECTOR];
    println!(rt; "reading it back")?;
    if let Err(fault) = device.read(PLACE, &mut sector) {
        return say(rt, Err(Refusal(fault)));
    }
    match std::str::from_utf8(text_of(&sector)) {
        Ok(text) => println!(rt; "  the cards say \"{text}\"")?,
        Err(_) => println!(rt; "  the cards hold no text")?,
    }
    Ok(())
}

fn tell_restart<D: Device>(rt: &HostRuntime, device: &mut D) -> anyhow::Result<()> {
    println!(rt; "power comes back")?;
    let on = device.restart();
    say(rt, on.map(|()| "the cards are on").map_err(Refusal))
}

// The story over a pile of devices.
fn tell<D: Device + Drop>(rt: &HostRuntime, mut device: D) -> anyhow::Result<()> {
    let sectors = device.sectors();
    println!(rt; "two cards of {sectors} sectors are in their slots")?;
    tell_keeping(rt, &mut device, "tag 4711: 12 visits left")?;
    tell_keeping(rt, &mut device, "tag 4711: 11 visits left")?;
    tell_reading(rt, &mut device)?;
    tell_restart(rt, &mut device)?;
    tell_reading(rt, &mut device)
}

// The story over a pile on two devices. Where they are named, with the bytes that they borrow, a cache over them
// gets no proof.
fn tell_pile<L: Device + Drop, R: Device + Drop>(
    rt: &HostRuntime,
    left: L,
    right: R,
) -> anyhow::Result<()> {
    tell(rt, Cache::new(Mirror::new(left, right)))
}

// A device over each card. Where both are refused, the left one's refusal answers. So does the console, whose cards
// are one struct: a function of both would be no plainer.
pub fn devices<'a>(
    left: &'a mut Card,
    right: &'a mut Card,
) -> Result<(Bench<'a, 'a, 'a>, Bench<'a, 'a, 'a>), DeviceFault> {
    Ok((left.device()?, right.device()?))
}

// The story over two cards in their slots.
fn tell_slots(rt: &HostRuntime, left: &mut Card, right: &mut Card) -> anyhow::Result<()> {
    match devices(left, right) {
        Ok((l, r)) => tell_pile(rt, l, r),
        Err(fault) => say(rt, Err(Refusal(fault))),
    }
}

// Says on which cards the sector is spoiled.
fn tell_card(rt: &HostRuntime, name: &str, card: &Card) -> anyhow::Result<()> {
    match card.flags.get(PLACE) {
        Some(0) => println!(rt; "on the {name} card sector {PLACE} is whole")?,
        _ => println!(rt; "on the {name} card sector {PLACE} is spoiled")?,
    }
    Ok(())
}

// The left card's power fails in its second write and spoils the sector.
fn tell_pair(rt: &HostRuntime) -> anyhow::Result<()> {
    let mut left = Card::blank(rt.alloc(), SECTORS, 1)?;
    let mut right = Card::blank(rt.alloc(), SECTORS, 2)?;
    left.plan = vec![in rt.alloc(); 0, 3]?;
    tell_slots(rt, &mut left, &mut right)?;
    tell_card(rt, "left", &left)?;
    tell_card(rt, "right", &right)
}

fn main(rt: HostRuntime) -> anyhow::Result<()> {
    tell_pair(&rt)?;
    println!(rt; "")?;
    reopening::tell_reopening(&rt)?;
    println!(rt; "")?;
    truncating::tell_truncating(&rt)?;
    println!(rt; "")?;
    ledger_story::tell_ledger(&rt)
}
