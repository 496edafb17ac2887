// Visits: sixteen tags, of as many accounts, and thirty-two guards.
use crate::counted::{Counted, Counts};
use crate::random::Random;
use crate::refused::Refused;
use book::LedgerFault;
use device::Device;
use ledger::Ledger;
use transactions::StoreFault;

const TAGS: usize = 16;

// Whether a call was refused since the log is full.
fn is_full<T>(answer: &Result<T, LedgerFault>) -> bool {
    matches!(answer, Err(LedgerFault::Store(StoreFault::Full(_))))
}

// Enrols a tag of each account and issues to it. The log is truncated after each.
fn prepare<D: Device>(
    ledger: &mut Ledger<D>,
    random: &mut Random,
) -> Result<[[u8; 8]; TAGS], LedgerFault> {
    let mut tags = [[0u8; 8]; TAGS];
    ledger.truncate()?;
    for (account, tag) in (1u16..).zip(&mut tags) {
        *tag = random.next_number().to_le_bytes();
        ledger.enrol(tag, account, true)?;
        ledger.issue(account, 1 << 30, true)?;
        ledger.truncate()?;
    }
    Ok(tags)
}

// Takes all entries off an account. Answers whether there may be more.
fn collect_one<D: Device>(ledger: &mut Ledger<D>, account: u16) -> Result<bool, LedgerFault> {
    let answer = ledger.collect(account, true);
    if is_full(&answer) {
        ledger.truncate()?;
        return Ok(true);
    }
    match answer {
        Err(LedgerFault::NoEntry(_)) => Ok(false),
        Err(fault) => Err(fault),
        Ok(_) => Ok(true),
    }
}

fn collect_account<D: Device>(ledger: &mut Ledger<D>, account: u16) -> Result<(), LedgerFault> {
    for _ in 0..u64::MAX {
        if !collect_one(ledger, account)? {
            break;
        }
    }
    Ok(())
}

// Takes all entries off all accounts.
fn collect_all<D: Device>(ledger: &mut Ledger<D>) -> Result<(), LedgerFault> {
    for account in 1..=64u16 {
        collect_account(ledger, account)?;
    }
    ledger.truncate()?;
    Ok(())
}

// What is measured: a visit, with the truncation that it may need. Answers whether a cell was free.
#[inline(never)]
fn visit_once<D: Device>(
    ledger: &mut Ledger<D>,
    tag: &[u8; 8],
    guard: u16,
) -> Result<bool, LedgerFault> {
    let mut answer = ledger.visit(tag, guard, true);
    if is_full(&answer) {
        ledger.truncate()?;
        answer = ledger.visit(tag, guard, true);
    }
    match answer {
        Err(LedgerFault::NoCell(_)) => Ok(false),
        Err(fault) => Err(fault),
        Ok(_) => Ok(true),
    }
}

// A visit by a random number, after a collection where no cell is free.
fn visit<D: Device>(
    ledger: &mut Ledger<D>,
    tags: &[[u8; 8]; TAGS],
    number: u64,
) -> Result<(), LedgerFault> {
    let tag = &tags[(number % 16) as usize];
    let guard = 17 + (number / 16 % 32) as u16;
    if !visit_once(ledger, tag, guard)? {
        collect_all(ledger)?;
        visit_once(ledger, tag, guard)?;
    }
    Ok(())
}

pub fn visits<D: Device + Drop>(device: Counted<D>, count: usize) -> Result<Counts, Refused> {
    let mut random = Random::new();
    let (mut ledger, made) = Ledger::make(device);
    made?;
    let tags = prepare(&mut ledger, &mut random)?;
    for _ in 0..count {
        visit(&mut ledger, &tags, random.next_number())?;
    }
    Ok(ledger.close().counts())
}
