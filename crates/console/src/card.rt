// The two cards, and what is done to them while no pile is in use.
use crate::answer::{Answer, Hex};
use crate::command::{CardCommand, Side};
use crate::words::LineFault;
use bench::Bench;
use cards::Card;
use device::{DeviceFault, SECTOR};
use std::alloc::{AllocError, Global};
use std::fmt;

// What a sector shows, where there is one.
fn show(card: &Card, sector: usize) -> Option<Shown<'_>> {
    Some(Shown::of(card.sectors.get(sector)?, *card.flags.get(sector)?))
}

// Puts 128 bytes into a sector, which is then not spoiled.
fn poke(card: &mut Card, sector: usize, bytes: &[u8]) -> Option<()> {
    *card.sectors.get_mut(sector)? = bytes.try_into().ok()?;
    flag(card, sector, 0)
}

// Marks a sector as spoiled or whole; its bytes stay.
fn flag(card: &mut Card, sector: usize, flag: u8) -> Option<()> {
    *card.flags.get_mut(sector)? = flag;
    Some(())
}

// Zeros in so many sectors, none of them spoiled. The plan and the origin stay.
fn blank(card: &mut Card, heap: Global, sectors: usize) -> Result<(), AllocError> {
    let Card { sectors, flags, .. } = Card::blank(heap, sectors, card.origin)?;
    card.sectors = sectors;
    card.flags = flags;
    Ok(())
}

// Does what a command says, and answers it.
fn obey(card: &mut Card, heap: Global, command: CardCommand) -> Result<Answer<'_>, LineFault> {
    match command {
        CardCommand::Blank(sectors) => blank(card, heap, sectors)?,
        CardCommand::Poke(sector, bytes) => {
            poke(card, sector, bytes.as_slice()).ok_or(LineFault::Bad)?
        }
        CardCommand::Spoil(sector) => flag(card, sector, 1).ok_or(LineFault::Bad)?,
        CardCommand::Plan(plan) => card.plan = plan,
        CardCommand::Origin(origin) => card.origin = origin,
        CardCommand::Show(sector) => {
            return Ok(Answer::Shown(show(card, sector).ok_or(LineFault::Bad)?));
        }
        CardCommand::Dump => return Ok(Answer::Dump(Dump(card))),
    }
    Ok(Answer::Done)
}

// What a sector of a card shows. Not an Option, since it is printed.
#[derive(Clone, Copy)]
pub enum Shown<'a> {
    Spoiled,
    Bytes(&'a [u8; SECTOR]),
}

impl<'a> Shown<'a> {
    fn of(bytes: &'a [u8; SECTOR], flag: u8) -> Self {
        match flag {
            0 => Shown::Bytes(bytes),
            _ => Shown::Spoiled,
        }
    }

    // It is as on a new card.
    fn is_blank(&self) -> bool {
        match self {
            Shown::Spoiled => false,
            Shown::Bytes(bytes) => bytes.iter().all(|b| *b == 0),
        }
    }
}

impl fmt::Display for Shown<'_> {
    fn fmt<W: fmt::Write>(&self, f: &mut fmt::Formatter<W>) -> fmt::Result {
        match self {
            Shown::Spoiled => f.write_str("spoiled"),
            Shown::Bytes(bytes) => {
                let text = Hex(bytes.as_slice());
                write!(f, "{text}")
            }
        }
    }
}

// A line for each sector that is not blank, the lowest first, and one for the end.
#[derive(Clone, Copy)]
pub struct Dump<'a>(&'a Card);

impl fmt::Display for Dump<'_> {
    fn fmt<W: fmt::Write>(&self, f: &mut fmt::Formatter<W>) -> fmt::Result {
        for (sector, (bytes, flag)) in self.0.sectors.iter().zip(&self.0.flags).enumerate() {
            let shown = Shown::of(bytes, *flag);
            if !shown.is_blank() {
                writeln!(f, "{sector} {shown}")?;
            }
        }
        f.write_str("end")
    }
}

// The two cards.
#[derive(Drop)]
pub struct Cards {
    left: Card,
    right: Card,
}

impl Cards {
    // Two cards of so many sectors, with origins 1 and 2.
    pub fn new(heap: Global, sectors: usize) -> Result<Cards, AllocError> {
        Ok(Cards {
            left: Card::blank(heap, sectors, 1)?,
            right: Card::blank(heap, sectors, 2)?,
        })
    }

    fn card(&mut self, side: Side) -> &mut Card {
        match side {
            Side::Left => &mut self.left,
            Side::Right => &mut self.right,
        }
    }

    // Does what a command says to one of them, and answers it.
    pub fn obey(
        &mut self,
        heap: Global,
        side: Side,
        command: CardCommand,
    ) -> Result<Answer<'_>, LineFault> {
        obey(self.card(side), heap, command)
    }

    // A bench device over one of them.
    pub fn device(&mut self, side: Side) -> Result<Bench<'_, '_, '_>, DeviceFault> {
        self.card(side).device()
    }

    // One over each. Where both are refused, the left one's refusal answers.
    pub fn devices(&mut self) -> Result<(Bench<'_, '_, '_>, Bench<'_, '_, '_>), DeviceFault> {
        Ok((self.left.device()?, self.right.device()?))
    }
}
