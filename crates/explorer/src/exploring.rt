// Cuts at every write: of the script, and of each opening after it.
use crate::opening::{open, open_cut};
use crate::piles::{Cards, Cut, Fate, Shape, Side, Work, on_pile};
use crate::playing::{Played, play};
use crate::trouble::Trouble;
use anyhow::{Context, bail};
use device::Device;
use std::alloc::Global;

// More writes than the script makes on a card: a bound for loops that a run without a cut ends.
const WRITES: usize = 1000;

// Plays the script.
#[derive(Clone, Copy)]
struct Play;

impl Work for Play {
    type Outcome = Played;

    fn on<D: Device + Drop>(self, device: D) -> Result<Played, Trouble> {
        play(device)
    }
}

// Opens what is left by a script that came so far.
#[derive(Clone, Copy)]
struct Open(Played);

impl Work for Open {
    type Outcome = ();

    fn on<D: Device + Drop>(self, device: D) -> Result<(), Trouble> {
        let Open(played) = self;
        open(device, played)
    }
}

// The same where power is to fail in the opening.
#[derive(Clone, Copy)]
struct OpenCut(Played);

impl Work for OpenCut {
    type Outcome = bool;

    fn on<D: Device + Drop>(self, device: D) -> Result<bool, Trouble> {
        let OpenCut(played) = self;
        open_cut(device, played)
    }
}

// Explores one shape of pile, and counts the cuts that were tried: of scripts, and of openings.
#[derive(Clone, Copy)]
pub struct Explorer {
    heap: Global,
    shape: Shape,
    pub scripts: usize,
    pub openings: usize,
}

impl Explorer {
    pub fn new(heap: Global, shape: Shape) -> Explorer {
        Explorer {
            heap,
            shape,
            scripts: 0,
            openings: 0,
        }
    }

    // Opens a copy of the cards, where power fails so. Answers whether it did.
    fn cut_opening(&mut self, cards: &Cards, played: Played, cut: Cut) -> anyhow::Result<bool> {
        let mut cards = cards.copy(self.heap)?;
        cards.plan(self.heap, cut)?;
        let opened = on_pile(self.shape, &mut cards, OpenCut(played));
        let failed = opened.context(format_args!("in an opening the {cut}"))?;
        if failed {
            self.openings = self.openings.saturating_add(1);
        }
        Ok(failed)
    }

    // Opens copies of the cards with a cut at each of the writes that the opening makes on this side.
    fn cut_openings(
        &mut self,
        cards: &Cards,
        played: Played,
        side: Side,
        fate: Fate,
    ) -> anyhow::Result<()> {
        for writes in 0..WRITES {
            let cut = Cut { side, writes, fate };
            if !self.cut_opening(cards, played, cut)? {
                return Ok(());
            }
        }
        bail!("an opening comes to no end")
    }

    // Opens what the script left on the cards with no cut, and then with cuts of one kind on each side.
    fn open_all(&mut self, cards: &Cards, played: Played, fate: Fate) -> anyhow::Result<()> {
        on_pile(self.shape, &mut cards.copy(self.heap)?, Open(played))?;
        for side in self.shape.sides() {
            self.cut_openings(cards, played, *side, fate)?;
        }
        Ok(())
    }

    // Plays the script on new cards, where power fails so, and opens what that leaves, where it fails alike. Answers
    // whether power failed in the script.
    fn cut_script(&mut self, cut: Cut) -> anyhow::Result<bool> {
        let mut cards = Cards::blank(self.heap)?;
        cards.plan(self.heap, cut)?;
        let played = on_pile(self.shape, &mut cards, Play)?;
        if played.cut {
            self.scripts = self.scripts.saturating_add(1);
        }
        self.open_all(&cards, played, cut.fate)?;
        Ok(played.cut)
    }

    // Cuts the script at each of the writes that it makes on this side, and plays it with no cut.
    fn cut_scripts(&mut self, side: Side, fate: Fate) -> anyhow::Result<()> {
        let shape = self.shape;
        for writes in 0..WRITES {
            let cut = Cut { side, writes, fate };
            let outcome = self.cut_script(cut);
            if !outcome.context(format_args!("over {shape} the {cut}"))? {
                return Ok(());
            }
        }
        bail!("the script comes to no end")
    }

    // Cuts the script on this side in each way.
    fn cut_side(&mut self, side: Side) -> anyhow::Result<()> {
        for fate in Fate::ALL {
            self.cut_scripts(side, fate)?;
        }
        Ok(())
    }

    // Cuts the script on each side.
    pub fn explore(&mut self) -> anyhow::Result<()> {
        for side in self.shape.sides() {
            self.cut_side(*side)?;
        }
        Ok(())
    }
}
