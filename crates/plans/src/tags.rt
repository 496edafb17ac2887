// Tags: finding one, and planning to enrol and to drop one.
ghost use Rattle.std.specs.Prelude.{◌≡◌};
ghost use Rattle.record.specs.Fields.{field};
ghost use Rattle.book.specs.Layout.{byte_in, head_at, bucket_chain};
ghost use Rattle.book.specs.Records.{bucket_of, tag_kind, tag_content};
ghost use Rattle.book.specs.Book.{Book, Holds};
ghost use Rattle.book.specs.Rows.{account_of, enrol_rows, drop_rows, present};
ghost use Rattle.book.specs.Edits.{tag, enrol_edits, drop_edits};
ghost use Rattle.plans.specs.Plans.{Passes, Planned, edits_of};
ghost use Rattle.plans.specs.Putting.{putting};

use crate::checks::check_account;
use crate::found::FreeCell;
use crate::plan::Plan;
use crate::putting::{inserted, taking_out};
use crate::walking::{front_free, seek_tag};
use book::{Chain, LedgerFault, Tag, bucket_of};
use image::MEMORY;

/// The account of a tag, if the tag is there.
pub fn find_tag(memory: &[u8; MEMORY], id: &[u8; 8]) -> Option<u16>
    ensures { (b : Book) → Holds (byte_in memory.now) b → result ≡ account_of b id.now }
{
    let found = seek_tag(memory, id)?;
    Some(found.record.account)
}

// The tag is not there yet.
fn check_new(memory: &[u8; MEMORY], id: &[u8; 8]) -> Result<(), LedgerFault>
    ensures { (b : Book) → Holds (byte_in memory.now) b → Passes (present (account_of b id.now)) result }
{
    match find_tag(memory, id) {
        Some(account) => Err(LedgerFault::Present(account)),
        None => Ok(()),
    }
}

/// Enrolling: a tag goes to the front of its bucket.
pub fn plan_enrol(memory: &[u8; MEMORY], id: &[u8; 8], account: u16) -> Result<Plan, LedgerFault>
    ensures { (b : Book) → Holds (byte_in memory.now) b → Planned (enrol_rows b id.now account) (enrol_edits b id.now account) result }
{
    check_account(account)?;
    check_new(memory, id)?;
    let cell = front_free(memory, account)?;
    Ok(enrolling(memory, &cell, id, account))
}

// This free cell takes the tag.
fn enrolling(memory: &[u8; MEMORY], cell: &FreeCell, id: &[u8; 8], account: u16) -> Plan
    ensures { let head = head_at (bucket_chain (bucket_of id.now)) in edits_of result ≡ putting head (field head 2 memory.now) cell.now.number cell.now.next tag_kind (tag_content (tag id.now account)) }
{
    let tag = Tag { id: *id, account };
    let chain = Chain::Bucket(bucket_of(id));
    Plan::Relink(inserted(memory, cell, chain, &tag))
}

/// Dropping: a tag is taken out of its bucket.
pub fn plan_drop(memory: &[u8; MEMORY], id: &[u8; 8]) -> Result<Plan, LedgerFault>
    ensures { (b : Book) → Holds (byte_in memory.now) b → Planned (drop_rows b id.now) (drop_edits b id.now) result }
{
    let Some(found) = seek_tag(memory, id) else {
        return Err(LedgerFault::Unknown(bucket_of(id) as usize));
    };
    Ok(taking_out(memory, &found))
}
