// The cards, and the piles that are put together from them.
use crate::trouble::Trouble;
use bench::Bench;
use cache::Cache;
use cards::Card;
use device::{Device, DeviceFault};
use mirror::Mirror;
use std::alloc::{AllocError, Global};
use std::fmt;

// The fewest sectors that a store takes.
const SECTORS: usize = 224;

#[derive(Clone, Copy, PartialEq, Eq)]
pub enum Side {
    Left,
    Right,
}

impl fmt::Display for Side {
    fn fmt<W: fmt::Write>(&self, f: &mut fmt::Formatter<W>) -> fmt::Result {
        f.write_str(match self {
            Side::Left => "left",
            Side::Right => "right",
        })
    }
}

// How a pile is put together.
#[derive(Clone, Copy, PartialEq, Eq)]
pub enum Shape {
    Bench,
    Mirror,
    Cache,
    CacheOverMirror,
    MirrorOfCaches,
}

impl Shape {
    pub const ALL: [Shape; 5] = [
        Shape::Bench,
        Shape::Mirror,
        Shape::Cache,
        Shape::CacheOverMirror,
        Shape::MirrorOfCaches,
    ];

    // The sides whose cards it stands on.
    pub fn sides(&self) -> &'static [Side] {
        match self {
            Shape::Bench | Shape::Cache => &[Side::Left],
            Shape::Mirror | Shape::CacheOverMirror | Shape::MirrorOfCaches => {
                &[Side::Left, Side::Right]
            }
        }
    }
}

impl fmt::Display for Shape {
    fn fmt<W: fmt::Write>(&self, f: &mut fmt::Formatter<W>) -> fmt::Result {
        f.write_str(match self {
            Shape::Bench => "a bench device",
            Shape::Mirror => "a mirror of two bench devices",
            Shape::Cache => "a cache over a bench device",
            Shape::CacheOverMirror => "a cache over a mirror",
            Shape::MirrorOfCaches => "a mirror of two caches",
        })
    }
}

// What a failing write leaves in its sector.
#[derive(Clone, Copy, PartialEq, Eq)]
pub enum Fate {
    Old,
    New,
    Spoiled,
}

impl Fate {
    pub const ALL: [Fate; 3] = [Fate::Old, Fate::New, Fate::Spoiled];

    // Its code in a power plan.
    fn code(self) -> u8 {
        match self {
            Fate::Old => 1,
            Fate::New => 2,
            Fate::Spoiled => 3,
        }
    }
}

impl fmt::Display for Fate {
    fn fmt<W: fmt::Write>(&self, f: &mut fmt::Formatter<W>) -> fmt::Result {
        f.write_str(match self {
            Fate::Old => "as before",
            Fate::New => "written",
            Fate::Spoiled => "spoiled",
        })
    }
}

// Where power fails: on this side's card, in the write after so many.
#[derive(Clone, Copy, PartialEq, Eq)]
pub struct Cut {
    pub side: Side,
    pub writes: usize,
    pub fate: Fate,
}

impl fmt::Display for Cut {
    fn fmt<W: fmt::Write>(&self, f: &mut fmt::Formatter<W>) -> fmt::Result {
        let Cut { side, writes, fate } = *self;
        write!(f, "{side} card is cut after {writes} writes, sector {fate}")
    }
}

// A card that holds the same, with an empty plan.
fn copy(heap: Global, card: &Card) -> Result<Card, AllocError> {
    Ok(Card {
        sectors: card.sectors.clone()?,
        flags: card.flags.clone()?,
        plan: Vec::new(heap),
        origin: card.origin,
    })
}

// The two cards. A pile of one stands on the left one.
#[derive(Drop)]
pub struct Cards {
    left: Card,
    right: Card,
}

impl Cards {
    pub fn blank(heap: Global) -> Result<Cards, AllocError> {
        Ok(Cards {
            left: Card::blank(heap, SECTORS, 1)?,
            right: Card::blank(heap, SECTORS, 2)?,
        })
    }

    // Cards that hold the same, with no power plan.
    pub fn copy(&self, heap: Global) -> Result<Cards, AllocError> {
        Ok(Cards {
            left: copy(heap, &self.left)?,
            right: copy(heap, &self.right)?,
        })
    }

    // Plans that power fails there.
    pub fn plan(&mut self, heap: Global, cut: Cut) -> Result<(), AllocError> {
        let card = match cut.side {
            Side::Left => &mut self.left,
            Side::Right => &mut self.right,
        };
        card.plan = vec![in heap; 0u8; cut.writes]?;
        card.plan.push(cut.fate.code())?;
        Ok(())
    }

    fn devices(&mut self) -> Result<(Bench<'_, '_, '_>, Bench<'_, '_, '_>), DeviceFault> {
        Ok((self.left.device()?, self.right.device()?))
    }
}

// What is done on a pile, whatever its shape.
pub trait Work: Drop {
    type Outcome;

    fn on<D: Device + Drop>(self, device: D) -> Result<Self::Outcome, Trouble>;
}

// A cache over any device: where the device is named, with the bytes that it borrows, a cache gets no proof.
fn on_cache<D: Device + Drop, W: Work>(device: D, work: W) -> Result<W::Outcome, Trouble> {
    work.on(Cache::new(device))
}

fn on_caches<L: Device + Drop, R: Device + Drop, W: Work>(
    left: L,
    right: R,
    work: W,
) -> Result<W::Outcome, Trouble> {
    work.on(Mirror::new(Cache::new(left), Cache::new(right)))
}

// Puts a pile together from the cards, and does the work on it. A match, since each shape is a type of its own.
pub fn on_pile<W: Work>(shape: Shape, cards: &mut Cards, work: W) -> Result<W::Outcome, Trouble> {
    let (left, right) = cards.devices()?;
    match shape {
        Shape::Bench => work.on(left),
        Shape::Mirror => work.on(Mirror::new(left, right)),
        Shape::Cache => on_cache(left, work),
        Shape::CacheOverMirror => on_cache(Mirror::new(left, right), work),
        Shape::MirrorOfCaches => on_caches(left, right, work),
    }
}
