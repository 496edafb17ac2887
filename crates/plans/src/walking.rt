// Walks along a chain: for every kind of record, and over any memory, in which a chain might have no end.
ghost use Rattle.std.specs.Prelude.{◌≡◌, ◌+◌, ◌≤◌, Bool, true, List, take};
ghost use Rattle.record.specs.Fields.{field};
ghost use Rattle.book.specs.Layout.{byte_in};
ghost use Rattle.book.specs.Book.{At, Book, Holds, IsAccount};
ghost use Rattle.plans.specs.Walks.{Leading, Leads, first_such, seen, Frees, Sought, Fronted};

use crate::found::{Found, FreeCell};
use crate::reading::{index, part};
use book::{CELLS, CONTENT, CellRecord, Chain, Entry, LedgerFault, Tag, bucket_of, cell_at};
use image::MEMORY;

// The cell to which the index at `link` leads, if it leads to one.
fn led_to(memory: &[u8; MEMORY], link: usize) -> Option<u16>
    requires { link + 2 ≤ 6144 }
    ensures { Leading (field link 2 memory.now) result }
{
    let number = index(memory, link);
    if number < 1 || number > CELLS {
        return None;
    }
    Some(number)
}

// The record in the cell to which the index at `link` leads, if it leads to one.
pub(crate) fn first<R: CellRecord + Drop>(memory: &[u8; MEMORY], link: usize) -> Option<Found<R>>
    requires { link + 2 ≤ 6144 }
    ensures { (xs : List (At R)) → Leads R.KIND R.content R.fits (byte_in memory.now) link xs → seen result ≡ first_such (λ _. true) link xs }
{
    let number = led_to(memory, link)?;
    let at = cell_at(number);
    Some(Found {
        link,
        number,
        next: index(memory, at),
        record: R::from_content(&part(memory, at + 4))?,
    })
}

// The first record that passes the test, of those that the index at `head` leads to. The test looks at the bytes, so
// that only the record that is found is read. No chain has more cells than there are, so a walk that goes on past that
// many is not along one.
pub(crate) fn seek<R: CellRecord + Drop, F: Fn(&[u8; CONTENT]) -> bool>(
    memory: &[u8; MEMORY],
    head: usize,
    is_it: F,
) -> Option<Found<R>>
    requires within { head + 2 ≤ 6144 }
    requires callable { F.IsAlwaysCallable is_it }
    ensures { (test : R → Bool) → ((x : _) (r : _) → F.post is_it x r → (item : R) → R.fits item → R.content item ≡ x.now → r ≡ test item) → (xs : List (At R)) → Leads R.KIND R.content R.fits (byte_in memory.now) head xs → seen result ≡ first_such test head xs }
{
    let mut link = head;
    for _i in 0..CELLS {
        let number = led_to(memory, link)?;
        let at = cell_at(number);
        if is_it(&part(memory, at + 4)) {
            return first(memory, link);
        }
        link = at;
    }
    None
}

// The front free cell, for something of this account.
pub(crate) fn front_free(memory: &[u8; MEMORY], account: u16) -> Result<FreeCell, LedgerFault>
    ensures { (b : Book) → Holds (byte_in memory.now) b → Frees account b.free result }
{
    let number = index(memory, Chain::Free.head());
    if number == 0 {
        return Err(LedgerFault::NoCell(account));
    }
    if number > CELLS {
        return Err(LedgerFault::NotLedger);
    }
    Ok(FreeCell {
        number,
        next: index(memory, cell_at(number)),
    })
}

// The bytes of its own that a tag has in its content.
fn own_bytes(content: &[u8; CONTENT]) -> [u8; 8]
    ensures { result ≡ take 8 content.now }
{
    content[0..8].try_into().unwrap()
}

// A tag in its bucket.
pub(crate) fn seek_tag(memory: &[u8; MEMORY], id: &[u8; 8]) -> Option<Found<Tag>>
    ensures { (b : Book) → Holds (byte_in memory.now) b → Sought b id.now result }
{
    let head = Chain::Bucket(bucket_of(id)).head();
    seek(
        memory,
        head,
        |content: &[u8; CONTENT]| own_bytes(content) == *id,
    )
}

// The front entry of an account.
pub(crate) fn front_entry(memory: &[u8; MEMORY], account: u16) -> Option<Found<Entry>>
    requires { IsAccount account }
    ensures { (b : Book) → Holds (byte_in memory.now) b → Fronted b account result }
{
    first(memory, Chain::Account(account).head())
}
