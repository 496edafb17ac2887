// Putting bytes into an open transaction.
ghost use Rattle.std.specs.Prelude.{◌≡◌, ◌+◌, ◌≤◌, [], ◌∷◌, ◌++◌, length};
ghost use Rattle.record.specs.Fields.{digits};
ghost use Rattle.book.specs.Layout.{cell_at, cell, whole};
ghost use Rattle.book.specs.Edits.{edit};
ghost use Rattle.transactions.specs.Held.{held};
ghost use Rattle.changes.specs.Steps.{Puts};

use book::{CELL, CONTENT, cell_at};
use device::Device;
use transactions::{Store, StoreFault, Token};

// Declares these bytes and puts them in. That they lie in the memory is asked, since a store refuses others.
#[inline(always)]
pub(crate) fn put<D: Device>(
    store: &mut Store<D>,
    token: &Token,
    start: usize,
    bytes: &[u8],
) -> Result<(), StoreFault>
    requires some { 1 ≤ length bytes.now }
    requires within { start + length bytes.now ≤ 6144 }
    ensures done { Puts token.now.number 1 (edit start bytes.now ∷ []) (held store.old) result (held store.new) }
    ensures device { store.new.device ≡ store.old.device }
{
    store.set_range(token, start, bytes.len())?;
    store.write(token, start, bytes)
}

// An amount is set.
#[tactic(auto, using(record::proofs::Numbers::bytes_8))]
pub(crate) fn put_amount<D: Device>(
    store: &mut Store<D>,
    token: &Token,
    at: usize,
    amount: u64,
) -> Result<(), StoreFault>
    requires within { at + 8 ≤ 6144 }
    ensures done { Puts token.now.number 1 (edit at (digits 8 amount) ∷ []) (held store.old) result (held store.new) }
    ensures device { store.new.device ≡ store.old.device }
{
    put(store, token, at, &amount.to_le_bytes())
}

// An index leads to this cell, or to none.
#[tactic(auto, using(record::proofs::Numbers::bytes_2))]
pub(crate) fn put_index<D: Device>(
    store: &mut Store<D>,
    token: &Token,
    at: usize,
    number: u16,
) -> Result<(), StoreFault>
    requires within { at + 2 ≤ 6144 }
    ensures done { Puts token.now.number 1 (edit at (digits 2 number) ∷ []) (held store.old) result (held store.new) }
    ensures device { store.new.device ≡ store.old.device }
{
    put(store, token, at, &number.to_le_bytes())
}

// A cell is written whole.
pub(crate) fn put_cell<D: Device>(
    store: &mut Store<D>,
    token: &Token,
    number: u16,
    next: u16,
    kind: u8,
    content: &[u8; CONTENT],
) -> Result<(), StoreFault>
    requires inside { number ≤ 200 }
    ensures done { Puts token.now.number 1 (edit (cell_at number) (whole next (cell number kind content.now)) ∷ []) (held store.old) result (held store.new) }
    ensures device { store.new.device ≡ store.old.device }
{
    put(
        store,
        token,
        cell_at(number),
        &cell_bytes(next, kind, content),
    )
}

// All bytes of a cell.
fn cell_bytes(next: u16, kind: u8, content: &[u8; CONTENT]) -> [u8; CELL]
    ensures { result ≡ digits 2 next ++ (kind ∷ 0 ∷ content.now) }
{
    let mut bytes = [0u8; CELL];
    bytes[0..2].copy_from_slice(&next.to_le_bytes());
    bytes[2] = kind;
    bytes[4..24].copy_from_slice(content);
    bytes
}
