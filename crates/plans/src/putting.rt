// Planning that a cell changes its chain.
ghost use Rattle.std.specs.Prelude.{◌≡◌};
ghost use Rattle.record.specs.Fields.{field};
ghost use Rattle.book.specs.Layout.{byte_in, head_at};
ghost use Rattle.book.specs.Heads.{IsChain, chain_number};
ghost use Rattle.book.specs.Book.{Book, Holds};
ghost use Rattle.book.specs.Edits.{unlink};
ghost use Rattle.plans.specs.Plans.{edits_of, relinking};
ghost use Rattle.plans.specs.Putting.{putting, taking};

use crate::found::{Found, FreeCell};
use crate::plan::{Plan, Relink};
use crate::reading::index;
use book::{CONTENT, CellRecord, Chain};
use image::MEMORY;

// This free cell goes to the front of a chain, with this record.
pub(crate) fn inserted<R: CellRecord>(
    memory: &[u8; MEMORY],
    cell: &FreeCell,
    chain: Chain,
    record: &R,
) -> Relink
    requires { IsChain chain }
    ensures { let head = head_at (chain_number chain) in relinking result ≡ putting head (field head 2 memory.now) cell.now.number cell.now.next R.KIND (R.content «record».now) }
{
    let head = chain.head();
    Relink {
        link: head,
        to: cell.number,
        number: cell.number,
        next: index(memory, head),
        kind: R::KIND,
        content: record.to_content(),
        free: cell.next,
    }
}

// A cell is taken out of its chain, and becomes the front free one.
fn removed<R>(memory: &[u8; MEMORY], found: &Found<R>) -> Relink
    ensures { relinking result ≡ taking found.now.link found.now.number found.now.next (field 8 2 memory.now) }
{
    Relink {
        link: found.link,
        to: found.next,
        number: found.number,
        next: index(memory, Chain::Free.head()),
        kind: 0,
        content: [0; CONTENT],
        free: found.number,
    }
}

// This cell is taken out of its chain.
pub(crate) fn taking_out<R>(memory: &[u8; MEMORY], found: &Found<R>) -> Plan
    ensures { (b : Book) → Holds (byte_in memory.now) b → edits_of result ≡ unlink b found.now.link found.now.number found.now.next }
{
    Plan::Relink(removed(memory, found))
}
