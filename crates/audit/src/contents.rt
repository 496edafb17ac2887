// What lies in the cells.
ghost use Rattle.std.specs.Prelude.{◌≡◌, ℕ, ◌+◌, ◌<◌, ◌≤◌, ◌↔◌, IsTrue};
ghost use Rattle.book.specs.Records.{bucket_of};
ghost use Rattle.book.specs.Layout.{byte_in, InCells};
ghost use Rattle.book.specs.Book.{IsAccount};
ghost use Rattle.audit.specs.Contents.{ReadFrom, GoodEntry, GoodTag, IsFree, Fits, FitsOwner, AllFit, HasId, NotAfter, OnceAt, Once};

use crate::bytes::{is_blank, part};
use crate::layout::numbered;
use crate::owners::Owners;
use book::{CELLS, CellRecord, Chain, Entry, Tag, bucket_of, cell_at, is_account};
use transactions::MEMORY;

// Whether each cell lies on a chain, and has what that chain may have.
pub(crate) fn all_fit(memory: &[u8; MEMORY], owners: &Owners) -> bool
    ensures { IsTrue result ↔ AllFit (byte_in memory.now) owners.now }
{
    for (i, owner) in owners.iter().enumerate() {
        if !fits_owner(memory, i as u16 + 1, *owner) {
            return false;
        }
    }
    true
}

// Whether the cell lies on a chain, and has what that chain may have.
fn fits_owner(memory: &[u8; MEMORY], number: u16, owner: Option<u16>) -> bool
    requires { InCells number }
    ensures { IsTrue result ↔ FitsOwner (byte_in memory.now) number owner }
{
    match owner {
        Some(chain) => fits(memory, number, chain),
        None => false,
    }
}

// Whether the cell has what this chain may have.
fn fits(memory: &[u8; MEMORY], number: u16, chain: u16) -> bool
    requires { InCells number }
    ensures { IsTrue result ↔ Fits (byte_in memory.now) number chain }
{
    match numbered(chain) {
        Chain::Free => is_free(memory, number),
        Chain::Account(_) => has_entry(memory, number),
        Chain::Bucket(bucket) => has_tag(memory, number, bucket),
    }
}

// Whether the cell is free.
fn is_free(memory: &[u8; MEMORY], number: u16) -> bool
    requires { InCells number }
    ensures { IsTrue result ↔ IsFree (byte_in memory.now) number }
{
    is_blank(memory, cell_at(number) + 2, 22)
}

// Whether the cell has an entry that names an account.
fn has_entry(memory: &[u8; MEMORY], number: u16) -> bool
    requires { InCells number }
    ensures { IsTrue result ↔ GoodEntry (byte_in memory.now) number }
{
    match read_from::<Entry>(memory, number) {
        Some(entry) => is_account(entry.payee),
        None => false,
    }
}

// Whether the cell has a tag of this bucket that names an account.
fn has_tag(memory: &[u8; MEMORY], number: u16, bucket: u16) -> bool
    requires { InCells number }
    ensures { IsTrue result ↔ GoodTag (byte_in memory.now) number bucket }
{
    match read_from::<Tag>(memory, number) {
        Some(tag) => belongs(&tag, bucket),
        None => false,
    }
}

// Whether the tag names an account, and belongs to this bucket.
fn belongs(tag: &Tag, bucket: u16) -> bool
    ensures { IsTrue result ↔ (IsAccount tag.now.account × (bucket_of tag.now.id ≡ bucket)) }
{
    is_account(tag.account) && bucket_of(&tag.id) == bucket
}

// The record of this kind in the cell, if one lies there.
fn read_from<R: CellRecord>(memory: &[u8; MEMORY], number: u16) -> Option<R>
    requires { InCells number }
    ensures { ReadFrom R.KIND R.content R.fits (byte_in memory.now) number result }
{
    let at = cell_at(number);
    if !is_kind(memory, at, R::KIND) {
        return None;
    }
    R::from_content(&part(memory, at + 4))
}

// Whether the cell that stands here is of this kind, with a zero after it.
fn is_kind(memory: &[u8; MEMORY], at: usize, kind: u8) -> bool
    requires { at + 24 ≤ MEMORY }
    ensures { IsTrue result ↔ ((byte_in memory.now (at + 2) ≡ kind) × (byte_in memory.now (at + 3) ≡ 0)) }
{
    memory[at + 2] == kind && memory[at + 3] == 0
}

// Whether no tag lies in two cells.
pub(crate) fn tags_are_once(memory: &[u8; MEMORY]) -> bool
    ensures { IsTrue result ↔ Once (byte_in memory.now) }
{
    for number in 1..=CELLS {
        if !is_once(memory, number) {
            return false;
        }
    }
    true
}

// Whether the tag in this cell, if there is one, lies in none after it.
fn is_once(memory: &[u8; MEMORY], number: u16) -> bool
    requires { InCells number }
    ensures { IsTrue result ↔ OnceAt (byte_in memory.now) number }
{
    match read_from::<Tag>(memory, number) {
        Some(tag) => is_not_after(memory, number, &tag.id),
        None => true,
    }
}

// Whether the tag with these bytes lies in no cell after this one.
fn is_not_after(memory: &[u8; MEMORY], number: u16, id: &[u8; 8]) -> bool
    requires { InCells number }
    ensures { IsTrue result ↔ NotAfter (byte_in memory.now) number id.now }
{
    for other in number + 1..=CELLS {
        if has_id(memory, other, id) {
            return false;
        }
    }
    true
}

// Whether the tag with these bytes lies in the cell.
fn has_id(memory: &[u8; MEMORY], number: u16, id: &[u8; 8]) -> bool
    requires { InCells number }
    ensures { IsTrue result ↔ HasId (byte_in memory.now) number id.now }
{
    match read_from::<Tag>(memory, number) {
        Some(tag) => tag.id == *id,
        None => false,
    }
}
