// The last part of the story: a ledger on a mirror of two cards under write caches, worked by a script while power
// fails in a truncation and in the opening after it. Then the cards are moved into a fresh controller.
use crate::moving::{Issue, tell_moving};
use crate::reopening::StoreRefusal;
use crate::truncating::plan;
use crate::{Refusal, SECTORS, devices, say};
use book::LedgerFault;
use cache::Cache;
use cards::Card;
use device::Device;
use ledger_law::{Answer, Call, Script, work};
use mirror::Mirror;
use std::alloc::{AllocError, Global};
use std::fmt;
use transactions::{StoreFault, Token};

const WAREHOUSE: u16 = 1;

const SCHOOL: u16 = 2;

const GUARDS: u16 = 3;

const GATE: [u8; 8] = *b"tag 4711";

const YARD: [u8; 8] = *b"tag 4712";

const HALL: [u8; 8] = *b"tag 4713";

// The tags of the story. A tag is the 8 bytes of its text.
pub const TAGS: [[u8; 8]; 3] = [GATE, YARD, HALL];

const CALLS: usize = 24;

// The name of an account.
pub fn account_name(account: u16) -> &'static str {
    match account {
        WAREHOUSE => "the warehouse",
        SCHOOL => "the school",
        GUARDS => "the guard company",
        _ => "another account",
    }
}

// The name of a tag.
pub fn tag_name(id: &[u8; 8]) -> &str {
    std::str::from_utf8(id).unwrap_or("another tag")
}

// A ledger's refusal as the story tells it.
#[derive(Clone, Copy)]
pub struct LedgerRefusal(pub LedgerFault);

impl fmt::Display for LedgerRefusal {
    fn fmt<W: fmt::Write>(&self, f: &mut fmt::Formatter<W>) -> fmt::Result {
        match self.0 {
            LedgerFault::Store(StoreFault::Device(fault)) => Refusal(fault).fmt(f),
            LedgerFault::Store(fault) => StoreRefusal(fault).fmt(f),
            LedgerFault::NotLedger => f.write_str("what the cards hold is no ledger"),
            LedgerFault::Short(balance) => write!(f, "{balance} visits are left, too few for that"),
            // No call of the story answers the others.
            fault => {
                let number = fault.number();
                write!(f, "the ledger refuses, for reason {number}")
            }
        }
    }
}

fn issue(account: u16, amount: u64, flush: bool) -> Call {
    Call::Issue {
        account,
        amount,
        flush,
    }
}

// A round of the guard company, which is to be kept.
fn visit(tag: [u8; 8]) -> Call {
    Call::Visit {
        tag,
        guard: GUARDS,
        flush: true,
    }
}

// One that may wait.
fn waiting_visit(tag: [u8; 8]) -> Call {
    Call::Visit {
        tag,
        guard: GUARDS,
        flush: false,
    }
}

fn enrol(tag: [u8; 8], account: u16) -> Call {
    Call::Enrol {
        tag,
        account,
        flush: true,
    }
}

// Visits are bought, tags enrolled and rounds walked. What waits as power fails in the second truncation is a round
// and visits that are bought; what is lost of that is bought again.
fn script() -> [Call; CALLS] {
    [
        Call::Make,
        issue(WAREHOUSE, 12, true),
        issue(SCHOOL, 2, true),
        enrol(GATE, WAREHOUSE),
        enrol(YARD, WAREHOUSE),
        enrol(HALL, SCHOOL),
        visit(GATE),
        visit(HALL),
        Call::Truncate,
        visit(YARD),
        visit(HALL),
        visit(HALL),
        waiting_visit(GATE),
        issue(SCHOOL, 6, false),
        Call::Truncate,
        Call::Close,
        Call::Open,
        Call::Close,
        Call::Open,
        Call::Balance { account: SCHOOL },
        issue(SCHOOL, 6, true),
        visit(HALL),
        waiting_visit(YARD),
        Call::Flush,
    ]
}

fn tell_call(rt: &HostRuntime, call: Call) -> anyhow::Result<()> {
    match call {
        Call::Make => {
            println!(rt; "a new ledger is made on two cards, each under a write cache")?
        }
        Call::Open => println!(rt; "it is opened again")?,
        Call::Close => println!(rt; "the ledger is closed")?,
        Call::Flush => println!(rt; "what waits is written")?,
        Call::Truncate => println!(rt; "the log is truncated")?,
        Call::Find { tag } => println!(rt; "{} is looked up", tag_name(&tag))?,
        Call::Balance { account } => println!(rt; "{} is looked up", account_name(account))?,
        change => return tell_change(rt, change),
    }
    Ok(())
}

fn tell_change(rt: &HostRuntime, call: Call) -> anyhow::Result<()> {
    match call {
        Call::Issue {
            account,
            amount,
            ..
        } => println!(rt; "{amount} visits are issued to {}", account_name(account))?,
        Call::Move {
            payer,
            payee,
            amount,
            ..
        } => {
            let (from, to) = (account_name(payer), account_name(payee));
            println!(rt; "{from} pays {amount} visits to {to}")?
        }
        Call::Visit { tag, guard, .. } => {
            println!(rt; "{} visits {}", account_name(guard), tag_name(&tag))?
        }
        Call::Enrol { tag, account, .. } => {
            println!(rt;
                "{} is enrolled for {}",
                tag_name(&tag),
                account_name(account)
            )?
        }
        Call::Drop { tag, .. } => println!(rt; "{} is dropped", tag_name(&tag))?,
        Call::Collect { account, .. } => {
            println!(rt; "an entry of {} is collected", account_name(account))?
        }
        // The other calls change nothing in the book.
        _ => {}
    }
    Ok(())
}

// Whether a change of the book is settled when the call returns.
fn is_flushed(call: Call) -> bool {
    match call {
        Call::Issue { flush, .. }
        | Call::Move { flush, .. }
        | Call::Visit { flush, .. }
        | Call::Enrol { flush, .. }
        | Call::Drop { flush, .. }
        | Call::Collect { flush, .. } => flush,
        _ => true,
    }
}

// Tells that a change was made. Where it was to be kept, it is.
fn tell_changed(rt: &HostRuntime, call: Call, ordinal: u64) -> anyhow::Result<()> {
    if is_flushed(call) {
        println!(rt; "  it is kept, as transaction {ordinal}")?;
    } else {
        println!(rt; "  it waits, as transaction {ordinal}")?;
    }
    Ok(())
}

fn tell_answer(rt: &HostRuntime, call: Call, answer: Answer) -> anyhow::Result<()> {
    match answer {
        Answer::NotMade => println!(rt; "  that does not fit here")?,
        Answer::Closed | Answer::Made(Ok(())) => {}
        Answer::Changed(Ok(ordinal)) => return tell_changed(rt, call, ordinal),
        Answer::Collected(Ok((ordinal, entry))) => {
            println!(rt; "  {} was paid {}", account_name(entry.payee), entry.amount)?;
            return tell_changed(rt, call, ordinal);
        }
        Answer::Found(Ok(Some(account))) => println!(rt; "  it is {}'s", account_name(account))?,
        Answer::Found(Ok(None)) => println!(rt; "  it is not enrolled")?,
        Answer::Balance(Ok(balance)) => println!(rt; "  it has {balance} visits")?,
        Answer::Flushed(Ok(records)) => println!(rt; "  {records} records were written")?,
        Answer::Truncated(Ok(pages)) => println!(rt; "  {pages} pages were written home")?,
        Answer::Opened(Ok((found, strays))) => {
            println!(rt; "  {found} transactions are found, {strays} strays were cleared")?
        }
        Answer::Made(Err(fault))
        | Answer::Opened(Err(fault))
        | Answer::Changed(Err(fault))
        | Answer::Collected(Err(fault))
        | Answer::Found(Err(fault))
        | Answer::Balance(Err(fault))
        | Answer::Flushed(Err(fault))
        | Answer::Truncated(Err(fault)) => return say(rt, Err(LedgerRefusal(fault))),
    }
    Ok(())
}

// The issues that stand after these answers: those that were made, but for what a later opening no longer found.
// Power cuts none of the script's issues in its own call, so that each that is entered has an answer.
fn standing(heap: Global, calls: &[Call], answers: &[Answer]) -> Result<Vec<Issue>, AllocError> {
    let mut issues: Vec<Issue> = Vec::new(heap);
    for (call, answer) in calls.iter().zip(answers.iter()) {
        match (*call, *answer) {
            (Call::Issue { amount, .. }, Answer::Changed(Ok(ordinal))) => {
                issues.push(Issue { ordinal, amount })?
            }
            (_, Answer::Opened(Ok((found, _)))) => issues.retain(|issue| issue.ordinal <= found),
            _ => {}
        }
    }
    Ok(issues)
}

// Works the script on a new ledger, tells what each call answered, and hands on the issues that stand.
fn tell_script<D: Device + Drop>(rt: &HostRuntime, device: D) -> anyhow::Result<Vec<Issue>> {
    let calls = script();
    let mut answers: [Answer; CALLS] = [Answer::NotMade; CALLS];
    let mut store_answers: [law::Answer; 0] = [];
    let mut tokens: [Option<Token>; 0] = [];
    let script = Script::Ledger(&calls);
    let (_device, _count) = work(
        device,
        script,
        &mut tokens,
        &mut [],
        &mut store_answers,
        &mut answers,
    );
    for (call, answer) in calls.iter().zip(answers.iter()) {
        tell_call(rt, *call)?;
        tell_answer(rt, *call, *answer)?;
    }
    Ok(standing(rt.alloc(), &calls, &answers)?)
}

// The pile is put together where its devices have no names, as the story's first one.
fn tell_pile<L: Device + Drop, R: Device + Drop>(
    rt: &HostRuntime,
    left: L,
    right: R,
) -> anyhow::Result<Vec<Issue>> {
    tell_script(rt, Mirror::new(Cache::new(left), Cache::new(right)))
}

// Each card is written 225 times by the format and 52 times by the make's transaction; 22 times by the changes before
// the first truncation, 56 times by that, and 8 times by the two rounds after it. Then power fails in the second
// truncation, as the left card's cache sends down the last of the 7 records that wait; and in the opening, as the
// right card is cleared of the stray.
pub fn tell_ledger(rt: &HostRuntime) -> anyhow::Result<()> {
    let mut left = Card::blank(rt.alloc(), SECTORS, 1)?;
    let mut right = Card::blank(rt.alloc(), SECTORS, 2)?;
    left.plan = plan(rt.alloc(), &[(369, 1)])?;
    right.plan = plan(rt.alloc(), &[(370, 3)])?;
    let issues = match devices(&mut left, &mut right) {
        Ok((l, r)) => tell_pile(rt, l, r)?,
        Err(fault) => return say(rt, Err(Refusal(fault))),
    };
    left.plan.clear();
    right.plan.clear();
    match devices(&mut left, &mut right) {
        Ok((l, r)) => tell_moving(rt, l, r, issues.as_slice()),
        Err(fault) => say(rt, Err(Refusal(fault))),
    }
}
