// The memory of a store: declared bytes may change, and change back.

#![tactic(auto)]

ghost use Rattle.image.specs.Runs.{Joins};
ghost use Rattle.image.specs.Cut.{PiecesCut, PiecesFit, PiecesFew, PiecesNone, PiecesLay, Edges};

mod calls;
mod run;
mod runs;
mod state;

pub use journal::MEMORY;
pub use record::PAGE;
pub use run::{ImageFault, Piece, Run};
pub use runs::{Pieces, RUNS, Runs};
pub use state::Image;

// Names the theorem that joining a stretch in declares its bytes and no others, and keeps the runs apart.
pub fn joining_declares()
    ensures { Joins }
{}

// Names the theorem that the pieces are the declared bytes cut just at the bounds of pages and at the ends of runs.
pub fn pieces_are_cut_at_bounds()
    ensures { PiecesCut }
{}

// Names the theorem that each piece has bytes and lies in one page of the memory.
pub fn pieces_fit_pages()
    ensures { PiecesFit }
{}

// Names the theorem that sixteen runs are cut into no more than 79 pieces.
pub fn pieces_are_few()
    ensures { PiecesFew }
{}

// Names the theorem that there are no pieces only where there are no runs.
pub fn no_pieces_of_no_runs()
    ensures { PiecesNone }
{}

// Names the theorem that laying down the pieces of a memory gives its declared bytes and no others.
pub fn pieces_lay_the_runs()
    ensures { PiecesLay }
{}

// Names the worked edge: a run over the bound of two pages.
pub fn run_over_a_bound()
    ensures { Edges }
{}
