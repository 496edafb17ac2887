// The analysis of a log from the notes of its places: where it begins, how far it goes, and what its records say of
// the pages. The notes are any notes: what is told of a log holds where they are its own.
ghost use Rattle.device.specs.Disk.{Shown};
ghost use Rattle.journal.specs.Log.{log};
ghost use Rattle.journal.specs.Notes.{Tells, Noted, Topped, number_of};
ghost use Rattle.journal.specs.Pages.{Noted as NotedIn};
ghost use Rattle.journal.specs.Survey.{RunsTo, Surveys};
ghost use Rattle.record.specs.Entry.{Entry};
ghost use Rattle.record.specs.Kind.{code_of};
ghost use Rattle.std.specs.Prelude.{◌≡◌, ℕ, ◌+◌, ◌%◌, ◌^◌, ◌<◌, ◌≤◌, ◌==◌, true, length, if◌then◌else◌, nat_le};

use crate::note::{Latest, Note};
use crate::pages::PageTable;
use record::{Kind, PAGE, SERIALS};

// Why the notes show no log.
#[derive(Clone, Copy, PartialEq, Eq, Debug)]
pub enum LogFault {
    // There is no record at all.
    NoLog,
    // There is no mark with the serial that the log is said to begin with.
    NoMark(u64),
}

// What the notes of a log show.
#[derive(Clone, Copy)]
pub struct Survey {
    // The serial of the mark that the log begins with.
    pub low: u64,
    // The greatest serial, of those that follow without a gap, that ends a transaction or stands alone.
    pub last: u64,
    // What the records from low to last say of the pages.
    pub pages: PageTable,
}

// The place after this one, in a log of so many.
pub fn next_place(place: usize, places: usize) -> usize
    ensures { (s : ℕ) → 1 ≤ places → s % places ≡ place → result ≡ (s + 1) % places }
{
    let next = place.wrapping_add(1);
    if next < places { next } else { 0 }
}

// Whether the notes have a mark with this serial, which only the serial's own place can hold.
fn has_mark(notes: &[Note], serial: u64) -> bool
    ensures found { result ≡ true → (serial < 2 ^ 63) × (1 ≤ length notes.now) }
    ensures mark { (shows : ℕ → Shown) → Noted (length notes.now) shows notes.now → result ≡ ((log (length notes.now) shows serial).kind == 4) }
{
    let Some(place) = serial.checked_rem(notes.len() as u64) else {
        return false;
    };
    let note = notes[place as usize];
    serial < SERIALS && matches!(kind_of(note, serial), Some(Kind::Mark))
}

// Whether a record of this kind ends a transaction or stands alone.
fn closes(kind: Kind) -> bool
    ensures { result ≡ nat_le 2 (code_of kind) }
{
    kind != Kind::More
}

// The kind of the note's record, if it has this serial.
fn kind_of(note: Note, serial: u64) -> Option<Kind>
    ensures { number_of result ≡ (if note.serial == serial then number_of note.kind else 0) }
{
    note.kind.filter(|_| note.serial == serial)
}

// Notes what a record says of its page; a mark is of none.
fn tell(pages: &mut PageTable, note: Note, kind: Kind)
    ensures { (e : Entry) → Tells e note → code_of kind ≡ e.kind → (e.kind ≡ 4 → length e.bytes ≡ 0) → NotedIn e pages.old pages.new }
{
    if kind != Kind::Mark {
        pages.note(note.page as usize, note.size as usize == PAGE);
    }
}

// Takes in the record with this note, of which the serial comes next: notes what it says in the table of all, and where
// it ends a transaction or stands alone the log runs to it.
fn take_in(survey: &mut Survey, pages: &mut PageTable, note: Note, kind: Kind)
    ensures low { survey.new.low ≡ survey.old.low }
    ensures told { (e : Entry) → Tells e note → code_of kind ≡ e.kind → (e.kind ≡ 4 → length e.bytes ≡ 0) → NotedIn e pages.old pages.new }
    ensures closes { 2 ≤ code_of kind → survey.new ≡ record { low = survey.old.low; last = note.serial; pages = pages.new } }
    ensures goes { code_of kind ≤ 1 → survey.new ≡ survey.old }
{
    tell(pages, note, kind);
    if closes(kind) {
        survey.last = note.serial;
        survey.pages = *pages;
    }
}

// The records that follow the mark `low` without a gap, as far as the last of them that ends a transaction or stands
// alone, and what they say of the pages.
fn run_from(notes: &[Note], low: u64) -> Survey
    requires { (low < 2 ^ 63) × (1 ≤ length notes.now) }
    ensures low { result.low ≡ low }
    ensures runs { (shows : ℕ → Shown) → Noted (length notes.now) shows notes.now → (log (length notes.now) shows low).kind ≡ 4 → RunsTo (length notes.now) shows result }
{
    let mut survey = Survey {
        low,
        last: low,
        pages: PageTable::new(),
    };
    let mut pages = survey.pages;
    let mut place = (low % notes.len() as u64) as usize;
    for serial in low + 1..SERIALS {
        place = next_place(place, notes.len());
        let note = notes[place];
        let Some(kind) = kind_of(note, serial) else {
            break;
        };
        take_in(&mut survey, &mut pages, note, kind);
    }
    survey
}

// What the notes of all places of a log show of it, and the latest record among them.
pub fn survey_of(notes: &[Note], latest: Latest) -> Result<Survey, LogFault>
    ensures { (shows : ℕ → Shown) → Noted (length notes.now) shows notes.now → Topped (length notes.now) shows (length notes.now) latest → Surveys (length notes.now) shows result }
{
    if latest.serial == 0 {
        return Err(LogFault::NoLog);
    }
    if !has_mark(notes, latest.low) {
        return Err(LogFault::NoMark(latest.low));
    }
    Ok(run_from(notes, latest.low))
}
