// Cutting runs into pieces.
ghost use Rattle.std.specs.Prelude.{◌≡◌, ◌<◌, ◌≤◌};
ghost use Rattle.image.specs.Calls.{FirstRun};
ghost use Rattle.image.specs.Cut.{end};

use super::Pieces;
use crate::run::{Piece, Run};
use record::PAGE;

impl<'a> Pieces<'a> {
    ghost use Rattle.std.specs.Prelude.{◌≡◌, ◌<◌, ◌∷◌};
    ghost use Rattle.image.specs.Calls.{left, none, Cutting};
    ghost use Rattle.image.specs.Runs.{Apart, Inside};
    ghost use Rattle.image.specs.Cut.{cut_runs};

    // The pieces of these runs.
    pub(crate) fn of(runs: &'a [Run]) -> Pieces<'a>
        requires apart { Apart 0 runs.now }
        requires inside { Inside runs.now }
        ensures { left result ≡ cut_runs runs.now }
    {
        Pieces {
            from: 0,
            to: 0,
            runs,
        }
    }

    /// Whether none is left.
    #[inline]
    pub fn is_empty(&self) -> bool
        ensures { result ≡ none (left self.now) }
    {
        self.from >= self.to && self.runs.is_empty()
    }

    // The pieces of this run and of those after it.
    #[inline]
    fn from_run(run: Run, runs: &'a [Run]) -> Pieces<'a>
        requires apart { Apart 0 (run ∷ runs.now) }
        requires inside { Inside (run ∷ runs.now) }
        ensures same { left result ≡ cut_runs (run ∷ runs.now) }
        ensures some { result.from < result.to }
    {
        Pieces {
            from: run.from,
            to: run.to,
            runs,
        }
    }

    // Goes on to the next run where one is cut up; false where there is none.
    #[inline]
    fn go_on(&mut self) -> bool
        ensures same { left self.new ≡ left self.old }
        ensures some { Cutting result self.new }
    {
        if self.from < self.to {
            return true;
        }
        match first_run(self.runs) {
            Some((run, runs)) => {
                *self = Pieces::from_run(run, runs);
                true
            }
            None => false,
        }
    }
}

// Where the piece ends that begins at `from`: at the next page, or with the run.
#[inline]
fn end_of(from: usize, to: usize) -> usize
    requires some { from < to }
    requires inside { to ≤ 6144 }
    ensures { result ≡ end from to }
{
    ((from / PAGE + 1) * PAGE).min(to)
}

// The first run and those after it.
#[inline]
fn first_run(runs: &[Run]) -> Option<(Run, &[Run])>
    ensures { FirstRun runs.now result }
{
    let (run, rest) = runs.split_first()?;
    Some((*run, rest))
}

impl<'a> Iterator for Pieces<'a> {
    ghost use Rattle.std.specs.Iterator.{YieldsFirst, item_count};
    ghost use Rattle.image.specs.Calls.{left};

    type Item = Piece;

    ghost next_gives = { YieldsFirst left };

    ghost remaining = { item_count left };

    #[inline]
    fn next(&mut self) -> Option<Piece> {
        if !self.go_on() {
            return None;
        }
        let start = self.from;
        let end = end_of(start, self.to);
        self.from = end;
        Some(Piece {
            start,
            size: end - start,
        })
    }
}
