// Whether a memory is that of a ledger.

#![tactic(auto)]

ghost use Rattle.book.specs.Layout.{byte_in};
ghost use Rattle.audit.specs.Judging.{Judged, CellsJudged};

mod bytes;
mod contents;
mod layout;
mod money;
mod owners;
mod zeros;

use contents::{all_fit, tags_are_once};
use money::money_adds_up;
use owners::owners;
use transactions::MEMORY;
use zeros::zeros_stand;

/// Whether the memory holds a ledger: the zeros of its layout, money that adds up, and cells that each lie on one
/// chain and have what that chain may have.
pub fn is_ledger(memory: &[u8; MEMORY]) -> bool
    ensures { Judged (byte_in memory.now) result }
{
    zeros_stand(memory) && money_adds_up(memory) && cells_are_kept(memory)
}

// Whether each cell lies on one chain, and has what that chain may have, with no tag twice.
fn cells_are_kept(memory: &[u8; MEMORY]) -> bool
    ensures { CellsJudged (byte_in memory.now) result }
{
    match owners(memory) {
        Some(owners) => all_fit(memory, &owners) && tags_are_once(memory),
        None => false,
    }
}
