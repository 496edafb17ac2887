// The log of a device, seen by serial: what an opening finds in it.

#![tactic(auto)]

ghost use Rattle.journal.specs.Opening.{Determined};

mod note;
mod pages;
mod survey;

pub use note::{Latest, Note, note_of};
pub use pages::PageTable;
use record::{PAGE, PAGES};
pub use survey::{LogFault, Survey, next_place, survey_of};

// The number of bytes in the memory that a log keeps.
pub const MEMORY: usize = PAGES * PAGE;

// Names the theorem that what an opening finds is determined by what the sectors show.
pub fn finding_is_determined()
    ensures { Determined }
{}
