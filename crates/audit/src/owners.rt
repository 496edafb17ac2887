// Which chain each cell lies on.
ghost use Rattle.std.specs.Prelude.{◌≡◌, ◌-◌, ◌<◌, ◌≤◌, ◌↔◌, IsTrue, slice_set};
ghost use Rattle.book.specs.Layout.{byte_in, head_at, cell_at, InCells};
ghost use Rattle.audit.specs.Owners.{index_at, owner, Follows, Finds};

use crate::bytes::index;
use crate::layout::{CHAINS, head_place};
use book::{CELLS, cell_at};
use transactions::MEMORY;

// The number of the chain that each cell was met on.
pub(crate) type Owners = [Option<u16>; CELLS as usize];

// The owners of all cells, if no cell is met twice, and no chain leads out of the cells.
pub(crate) fn owners(memory: &[u8; MEMORY]) -> Option<Owners>
    ensures { Finds (byte_in memory.now) result }
{
    let mut owners = [None; CELLS as usize];
    for chain in 0..CHAINS {
        if !follow(memory, chain, &mut owners) {
            return None;
        }
    }
    Some(owners)
}

// Follows a chain, and marks each of its cells. It is not followed further than to a cell that has an owner.
fn follow(memory: &[u8; MEMORY], chain: u16, owners: &mut Owners) -> bool
    requires { chain < 81 }
    ensures { Follows (byte_in memory.now) owners.old owners.new chain result }
{
    let mut number = head(memory, chain);
    while number != 0 {
        if !is_new(owners, number) {
            return false;
        }
        give(owners, number, chain);
        number = next(memory, number);
    }
    true
}

// Whether there is a cell of this number, which has no owner yet.
fn is_new(owners: &Owners, number: u16) -> bool
    requires { 1 ≤ number }
    ensures { IsTrue result ↔ ((number ≤ 200) × (owner owners.now number ≡ None)) }
{
    number <= CELLS && owners[number as usize - 1].is_none()
}

// Gives the cell its owner.
fn give(owners: &mut Owners, number: u16, chain: u16)
    requires { InCells number }
    ensures { owners.new ≡ slice_set owners.old (number - 1) (Some chain) }
{
    owners[number as usize - 1] = Some(chain);
}

// The number of a chain's first cell.
fn head(memory: &[u8; MEMORY], chain: u16) -> u16
    requires { chain < 81 }
    ensures { result ≡ index_at (byte_in memory.now) (head_at chain) }
{
    index(memory, head_place(chain))
}

// The number of the cell after this one.
fn next(memory: &[u8; MEMORY], number: u16) -> u16
    requires { InCells number }
    ensures { result ≡ index_at (byte_in memory.now) (cell_at number) }
{
    index(memory, cell_at(number))
}
