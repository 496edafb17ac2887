// Adding to the spool.
ghost use Rattle.std.specs.Prelude.{◌≡◌, ◌+◌, ◌≤◌, ◌++◌, length, take, drop, if◌then◌else◌};
ghost use Rattle.arrayvec.specs.ArrayVec.{array_vec_len};
ghost use Rattle.image.specs.Calls.{declared};
ghost use Rattle.image.specs.Cut.{FitsPage, cut_runs};
ghost use Rattle.transactions.specs.Parts.{part, parts, item_of, waiting};

use crate::spool::{Spool, Spooled};
use image::{Image, MEMORY, PAGE, Piece};

// The parts of what is declared join what waits, in their order.
pub(crate) fn take_in(spool: &mut Spool, ordinal: u64, image: &Image)
    requires room { array_vec_len spool.old + length (cut_runs (declared image.now)) ≤ 32 }
    ensures count { array_vec_len spool.new
        ≡ array_vec_len spool.old + length (cut_runs (declared image.now)) }
    ensures waits { waiting spool.new
        ≡ waiting spool.old ++ parts ordinal image.now.memory (cut_runs (declared image.now)) }
{
    let mut pieces = image.pieces();
    while let Some(piece) = pieces.next() {
        let last = pieces.is_empty();
        spool.push(spooled(ordinal, &image.memory, &piece, last));
    }
}

// So many bytes from `start` on, and zeros after them.
fn copied(memory: &[u8; MEMORY], start: usize, size: usize) -> [u8; PAGE]
    requires few { size ≤ 96 }
    requires inside { start + size ≤ 6144 }
    ensures { take size result ≡ take size (drop start memory.now) }
{
    let mut bytes = [0; PAGE];
    bytes[..size].copy_from_slice(&memory[start..start + size]);
    bytes
}

// A piece of the memory as a part that waits, with a copy of its bytes.
fn spooled(ordinal: u64, memory: &[u8; MEMORY], piece: &Piece, last: bool) -> Spooled
    requires { FitsPage piece.now }
    ensures { item_of result ≡ part ordinal memory.now (if last then 2 else 1) piece.now }
{
    Spooled {
        ordinal,
        page: piece.page() as u16,
        offset: piece.offset() as u16,
        size: piece.size as u16,
        last,
        bytes: copied(memory, piece.start, piece.size),
    }
}
