// The runs of declared bytes, and the pieces that they are cut into.
ghost use Rattle.std.specs.Prelude.{◌≤◌, ◌++◌};
ghost use Rattle.image.specs.Runs.{Apart, Inside};
ghost use Rattle.image.specs.Cut.{AllPieces, cut, cut_runs};

mod calls;
mod cutting;

use crate::run::Run;
use arrayvec::ArrayVec;

// How many runs there are at most.
pub const RUNS: usize = 16;

// Runs that don't touch, in ascending order.
#[derive(Drop)]
pub struct Runs {
    pub items: ArrayVec<Run, RUNS>,
    ghost apart: { ∥ Apart 0 items.items ∥₁ },
    ghost inside: { ∥ Inside items.items ∥₁ },
}

/// The pieces of runs, the lowest first, each cut off when it is asked for. Each has bytes, and lies
/// in one page of the memory.
#[derive(Drop)]
pub struct Pieces<'a> {
    // What is left of the run that is being cut up, and the runs after it. A list of all pieces would be
    // filled and read once for each commit.
    pub from: usize,
    pub to: usize,
    pub runs: &'a [Run],
    ghost inside: { to ≤ 6144 },
    ghost apart: { ∥ Apart 0 runs.now ∥₁ },
    ghost all_inside: { ∥ Inside runs.now ∥₁ },
    ghost fit: { ∥ AllPieces (cut 64 from to ++ cut_runs runs.now) ∥₁ },
}
