// The second part of the story: a log whose last transaction was cut, and an opening that power cuts too.
use crate::{Refusal, SECTORS, say};
use cards::Card;
use device::{Device, DeviceFault, SECTOR};
use record::{Head, Record};
use std::fmt;
use transactions::{Store, StoreFault};

// A store's refusal as the story tells it.
#[derive(Clone, Copy)]
pub struct StoreRefusal(pub StoreFault);

impl fmt::Display for StoreRefusal {
    fn fmt<W: fmt::Write>(&self, f: &mut fmt::Formatter<W>) -> fmt::Result {
        match self.0 {
            StoreFault::Device(DeviceFault::Power(_)) => f.write_str("power failed"),
            StoreFault::Device(fault) => Refusal(fault).fmt(f),
            StoreFault::Size(count) => write!(f, "a card of {count} sectors doesn't fit"),
            StoreFault::NoLog => f.write_str("the card holds no log"),
            StoreFault::NoMark(low) => write!(
                f,
                "the log should begin with a mark at serial {low}, and doesn't"
            ),
            StoreFault::Uncovered(page) => write!(f, "page {page} can't be read"),
            // No format or opening answers the others.
            fault => {
                let number = fault.number();
                write!(f, "the store refuses, for reason {number}")
            }
        }
    }
}

// Makes a new store on a device, and closes it.
fn format<D: Device + Drop>(device: D) -> Result<(), StoreFault> {
    let (store, answer) = Store::format(device);
    let _device = store.close();
    answer
}

// Opens the store on a device and closes it: how many transactions are found, and how many strays were cleared.
fn open<D: Device + Drop>(device: D) -> Result<(u64, usize), StoreFault> {
    let (store, answer) = Store::open(device);
    let _device = store.close();
    answer
}

fn format_card(card: &mut Card) -> Result<(), StoreFault> {
    format(card.device()?)
}

fn open_card(card: &mut Card) -> Result<(u64, usize), StoreFault> {
    open(card.device()?)
}

// Writes a part of a transaction that has more to come, as a commit does that power cuts before its last one.
fn write_part<D: Device>(device: &mut D, serial: u64, bytes: &[u8]) -> Result<(), DeviceFault> {
    let head = Head {
        serial,
        low: 1,
        ordinal: 0,
    };
    let part = Record::Part {
        head,
        page: 0,
        offset: 0,
        last: false,
        bytes,
    };
    let mut sector = [0u8; SECTOR];
    let _ = record::write(part, &mut sector);
    device.write(serial as usize, &sector)
}

fn leave_parts(card: &mut Card) -> Result<(), DeviceFault> {
    let mut device = card.device()?;
    write_part(&mut device, 2, b"12 visits")?;
    write_part(&mut device, 3, b"11 visits")
}

// Opens the card, with power that fails as its plan says.
fn tell_opening(rt: &HostRuntime, card: &mut Card) -> anyhow::Result<()> {
    println!(rt; "the card is opened")?;
    match open_card(card) {
        Ok((found, strays)) => {
            println!(rt; "  {found} transactions are found, {strays} strays were cleared")?;
            Ok(())
        }
        Err(fault) => say(rt, Err(StoreRefusal(fault))),
    }
}

// A card is formatted, a transaction is cut, and so is the opening after it while it clears the strays.
pub fn tell_reopening(rt: &HostRuntime) -> anyhow::Result<()> {
    let mut card = Card::blank(rt.alloc(), SECTORS, 1)?;
    println!(rt; "a new card is formatted")?;
    let new = format_card(&mut card).map(|()| "its memory is all zeros, its log has one mark");
    say(rt, new.map_err(StoreRefusal))?;
    println!(rt; "power fails in a commit: two parts are on the card, the last one is missing")?;
    if let Err(fault) = leave_parts(&mut card) {
        say(rt, Err(Refusal(fault)))?;
    }
    card.plan = vec![in rt.alloc(); 0, 1]?;
    tell_opening(rt, &mut card)?;
    card.plan.clear();
    tell_opening(rt, &mut card)?;
    tell_opening(rt, &mut card)
}
