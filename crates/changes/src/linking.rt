// The free chain of a new ledger, and putting it in.
ghost use Rattle.std.specs.Prelude.{◌≡◌, true};
ghost use Rattle.book.specs.Edits.{free_chain, make_edits};
ghost use Rattle.transactions.specs.Held.{held};
ghost use Rattle.changes.specs.Steps.{Puts};

use crate::putting::put;
use book::{CELL, CELLS, Chain, cell_at};
use device::Device;
use transactions::{Store, StoreFault, Token};

// How many bytes all cells have.
const BYTES: usize = CELLS as usize * CELL;

// The bytes of all cells, each leading to the next one.
fn links() -> [u8; BYTES]
    ensures { result ≡ free_chain 1 200 }
{
    let mut bytes = [0; BYTES];
    // An index has two bytes, and that of a cell fits in the first one. After the last cell there is none.
    for i in 0..CELLS as usize - 1 {
        bytes[CELL * i] = i as u8 + 2;
    }
    bytes
}

// Puts in the free chain's head, and the cells.
pub(crate) fn put_links<D: Device>(store: &mut Store<D>, token: &Token) -> Result<(), StoreFault>
    ensures done { Puts token.now.number 5 make_edits (held store.old) result (held store.new) }
    ensures device { store.new.device ≡ store.old.device }
{
    put(store, token, Chain::Free.head(), &[1, 0])?;
    put(store, token, cell_at(1), &links())
}
