// What is done with the runs.
ghost use Rattle.std.specs.Prelude.{◌≡◌, ℕ, ◌+◌, ◌<◌, ◌≤◌, [], ◌∷◌, ◌++◌, length, take, drop, slice_index};
ghost use Rattle.arrayvec.specs.ArrayVec.{array_vec_len};
ghost use Rattle.image.specs.Calls.{listed, left, none, JoinedIn, Below, Meets, Reached};
ghost use Rattle.image.specs.Runs.{Declared};
ghost use Rattle.image.specs.Cut.{cut_runs};

use super::{Pieces, RUNS, Runs};
use crate::run::Run;
use arrayvec::ArrayVec;
use journal::MEMORY;

// The runs from the `first` one up to the one at `past` give way to this one.
fn replace(items: &mut ArrayVec<Run, RUNS>, first: usize, past: usize, run: Run)
    requires order { first ≤ past }
    requires inside { past ≤ array_vec_len items.old }
    requires room { first ≡ past → array_vec_len items.old < 16 }
    ensures { items.new.items ≡ take first items.old.items ++ run ∷ drop past items.old.items }
{
    if first == items.len() {
        items.push(run);
        return;
    }
    for _i in first..past {
        items.remove(first);
    }
    items.insert(first, run);
}

impl Runs {
    pub(crate) fn new() -> Runs
        ensures { listed result ≡ [] }
    {
        Runs {
            items: ArrayVec::new(),
        }
    }

    #[inline]
    pub(crate) fn is_empty(&self) -> bool
        ensures { result ≡ none (listed self.now) }
    {
        self.items.is_empty()
    }

    // Lets all runs go.
    pub(crate) fn clear(&mut self)
        ensures { listed self.new ≡ [] }
    {
        self.items.clear();
    }

    // How many runs end below `start`, and don't touch what begins there.
    fn below(&self, start: usize) -> usize
        ensures { Below start (listed self.now) result }
    {
        for (i, run) in self.items.iter().enumerate() {
            if start <= run.to {
                return i;
            }
        }
        self.items.len()
    }

    // Where the runs end that the stretch meets, from this one on, and the stretch made one with them.
    fn met(&self, first: usize, stretch: Run) -> (usize, Run)
        requires some { stretch.from < stretch.to }
        requires behind { Below stretch.from (listed self.now) first }
        ensures { Meets stretch.from stretch.to (listed self.now) first result.0 result.1 }
    {
        let runs = self.items.as_slice();
        let mut past = first;
        let mut whole = stretch;
        // By index, since it goes on as far as the stretch has grown.
        while past < runs.len() && runs[past].from <= whole.to {
            whole = Run {
                from: whole.from.min(runs[past].from),
                to: whole.to.max(runs[past].to),
            };
            past += 1;
        }
        (past, whole)
    }

    // Joins the stretch in. False where the runs would be too many, and then they stay as they are.
    pub(crate) fn join(&mut self, stretch: Run) -> bool
        requires some { stretch.from < stretch.to }
        requires inside { stretch.to ≤ 6144 }
        ensures { JoinedIn stretch.from stretch.to self.old result self.new }
    {
        let first = self.below(stretch.from);
        let (past, run) = self.met(first, stretch);
        if first == past && self.items.is_full() {
            return false;
        }
        replace(&mut self.items, first, past, run);
        true
    }

    // The first byte from `start` on that is not declared.
    pub(crate) fn reached(&self, start: usize) -> usize
        ensures { Reached start (listed self.now) result }
    {
        let mut at = start;
        for run in self.items.iter() {
            if run.from <= at && at < run.to {
                at = run.to;
            }
        }
        at
    }

    // Copies the declared bytes: what differs in these alone is the same afterwards.
    pub(crate) fn copy(&self, source: &[u8; MEMORY], target: &mut [u8; MEMORY])
        ensures { ((i : ℕ) → (Declared (listed self.now) i → ⊥) → slice_index source.now i ≡ slice_index target.old i) → target.new ≡ source.now }
    {
        for run in self.items.iter() {
            run.copy(source, target);
        }
    }

    // How many pieces the runs are cut into.
    pub(crate) fn piece_count(&self) -> usize
        ensures count { result ≡ length (cut_runs (listed self.now)) }
        ensures few { result ≤ 79 }
    {
        let mut count = 0;
        for run in self.items.iter() {
            count += run.piece_count();
        }
        count
    }

    // The runs cut at the bounds of pages.
    #[inline]
    pub(crate) fn pieces(&self) -> Pieces<'_>
        ensures { left result ≡ cut_runs (listed self.now) }
    {
        Pieces::of(&self.items)
    }
}
