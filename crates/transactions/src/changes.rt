// The changes of a store's state, apart from the device.
ghost use Rattle.std.specs.Prelude.{◌≡◌, ℕ, ◌+◌, ◌^◌, ◌<◌, ◌≤◌, true, ◌++◌, length};
ghost use Rattle.arrayvec.specs.ArrayVec.{array_vec_len};
ghost use Rattle.image.specs.Calls.{declared};
ghost use Rattle.image.specs.Cut.{cut_runs};
ghost use Rattle.transactions.specs.Calls.{Undone, Written, SpooledUp};
ghost use Rattle.transactions.specs.Pages.{Gains};
ghost use Rattle.transactions.specs.Parts.{parts};
ghost use Rattle.transactions.specs.State.{spooled, own};
ghost use Rattle.transactions.specs.Steps.{Over};
ghost use Rattle.transactions.specs.Truncation.{Truncated};

use crate::spooling::take_in;
use crate::state::State;
use image::{Image, PAGE};
use journal::PageTable;

// Notes what the records of all that is declared say of their pages.
fn note_pieces(table: &mut PageTable, image: &Image)
    ensures { (ordinal : ℕ) → Gains (parts ordinal image.now.memory (cut_runs (declared image.now))) table.old table.new }
{
    let mut pieces = image.pieces();
    while let Some(piece) = pieces.next() {
        table.note(piece.page(), piece.size == PAGE);
    }
}

impl State {
    // Ends the transaction with the memory as at begin.
    pub(crate) fn undo(&mut self)
        ensures undone { Undone self.old self.new }
        ensures pages { self.new.pages ≡ self.old.pages }
    {
        self.image.restore();
        self.busy = false;
    }

    // All that waited is written, and the store is on again.
    pub(crate) fn flushed(&mut self) -> usize
        ensures count { result ≡ array_vec_len self.old.spool }
        ensures written { Written self.old (spooled self.old) self.old.log.ordinal self.new }
        ensures same { (self.new.image ≡ self.old.image) × (self.new.busy ≡ self.old.busy) }
        ensures pages { self.new.pages ≡ self.old.pages }
    {
        let count = self.spool.len();
        self.log.last = self.written_to();
        self.spool.clear();
        self.on = true;
        count
    }

    // All that waited, so many page records and a mark are written: the log begins at the mark, and names no page.
    pub(crate) fn truncated(&mut self, due: usize)
        requires few { due ≤ 64 }
        requires bounded { self.old.log.last + array_vec_len self.old.spool + 65 < 2 ^ 63 }
        ensures { Truncated self.old due self.new }
    {
        self.log.last = self.written_to() + due as u64 + 1;
        self.log.low = self.log.last;
        self.spool.clear();
        self.pages = PageTable::new();
        self.on = true;
    }

    // All that waited and the transaction's records are written: it is over, and its bytes stay.
    pub(crate) fn committed(&mut self, records: usize) -> (u64, usize)
        requires bounded { self.old.log.last + array_vec_len self.old.spool + records < 2 ^ 63 }
        requires some { 1 ≤ records }
        requires own { records ≡ length (own self.old) }
        ensures answer { result ≡ (self.old.log.ordinal + 1, length (own self.old)) }
        ensures written { Written self.old (spooled self.old ++ own self.old) (self.old.log.ordinal + 1) self.new }
        ensures over { Over self.old self.new }
        ensures pages { Gains (own self.old) self.old.pages self.new.pages }
    {
        self.log.last = self.written_to() + records as u64;
        self.spool.clear();
        note_pieces(&mut self.pages, &self.image);
        self.log.ordinal += 1;
        self.image.keep();
        self.busy = false;
        self.on = true;
        (self.log.ordinal, records)
    }

    // The transaction's records wait: it is over, and its bytes stay.
    pub(crate) fn spooled_up(&mut self, records: usize) -> (u64, usize)
        requires room { array_vec_len self.old.spool + records ≤ 32 }
        requires bounded { self.old.log.last + array_vec_len self.old.spool + records < 2 ^ 63 }
        requires some { 1 ≤ records }
        requires own { records ≡ length (own self.old) }
        requires on { self.old.on ≡ true }
        ensures answer { result ≡ (self.old.log.ordinal + 1, length (own self.old)) }
        ensures spooled { SpooledUp self.old (own self.old) (self.old.log.ordinal + 1) self.new }
        ensures over { Over self.old self.new }
        ensures pages { Gains (own self.old) self.old.pages self.new.pages }
    {
        let ordinal = self.log.ordinal + 1;
        take_in(&mut self.spool, ordinal, &self.image);
        note_pieces(&mut self.pages, &self.image);
        self.log.ordinal = ordinal;
        self.image.keep();
        self.busy = false;
        (ordinal, records)
    }
}
