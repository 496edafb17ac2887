// The end of the story: the cards are moved into a fresh controller, which opens the ledger that they hold and tells
// what it finds.
use crate::ledger_story::{LedgerRefusal, TAGS, account_name, tag_name};
use crate::say;
use book::LedgerFault;
use cache::Cache;
use device::Device;
use ledger::Ledger;
use mirror::Mirror;

// How many accounts a ledger has.
const ACCOUNTS: usize = 64;

// Visits that were issued, and by which transaction.
#[derive(Clone, Copy)]
pub struct Issue {
    pub ordinal: u64,
    pub amount: u64,
}

// The balances of all accounts, from account 1 on.
fn balances<D: Device>(ledger: &Ledger<D>) -> Result<[u64; ACCOUNTS], LedgerFault> {
    let mut balances = [0u64; ACCOUNTS];
    for (account, balance) in (1..=64u16).zip(balances.iter_mut()) {
        *balance = ledger.balance(account)?;
    }
    Ok(balances)
}

// A sum that would pass the greatest number stays there; a ledger's total is at most half of that.
fn sum(balances: &[u64]) -> u64 {
    let mut sum = 0u64;
    for balance in balances {
        sum = sum.saturating_add(*balance);
    }
    sum
}

// What was issued by the transactions that were found.
fn issued(issues: &[Issue], found: u64) -> u64 {
    let mut issued = 0u64;
    for issue in issues {
        if issue.ordinal <= found {
            issued = issued.saturating_add(issue.amount);
        }
    }
    issued
}

fn tell_balances(rt: &HostRuntime, balances: &[u64]) -> anyhow::Result<()> {
    for (account, balance) in (1..=64u16).zip(balances.iter()) {
        if *balance != 0 {
            println!(rt; "  {} has {balance} visits", account_name(account))?;
        }
    }
    Ok(())
}

fn tell_tags<D: Device>(rt: &HostRuntime, ledger: &Ledger<D>) -> anyhow::Result<()> {
    for id in TAGS.iter() {
        match ledger.find(id) {
            Ok(Some(account)) => {
                println!(rt; "  {} is {}'s", tag_name(id), account_name(account))?
            }
            Ok(None) => println!(rt; "  {} is not enrolled", tag_name(id))?,
            Err(fault) => return say(rt, Err(LedgerRefusal(fault))),
        }
    }
    Ok(())
}

// Tells whether the balances sum to what was issued.
fn tell_books(rt: &HostRuntime, held: u64, issued: u64) -> anyhow::Result<()> {
    println!(rt; "the 64 balances sum to {held}, and {issued} visits were issued")?;
    say::<LedgerRefusal>(
        rt,
        Ok(if held == issued {
            "the books agree"
        } else {
            "the books don't agree"
        }),
    )
}

// Tells what the ledger holds.
fn tell_ledger<D: Device>(rt: &HostRuntime, ledger: &Ledger<D>, issued: u64) -> anyhow::Result<()> {
    let balances = match balances(ledger) {
        Ok(balances) => balances,
        Err(fault) => return say(rt, Err(LedgerRefusal(fault))),
    };
    println!(rt; "the balances are read")?;
    tell_balances(rt, &balances)?;
    println!(rt; "the tags are looked up")?;
    tell_tags(rt, ledger)?;
    tell_books(rt, sum(&balances), issued)
}

// Opens the ledger that a device holds, and tells what is found.
fn tell_opening<D: Device + Drop>(
    rt: &HostRuntime,
    device: D,
    issues: &[Issue],
) -> anyhow::Result<()> {
    println!(rt; "the cards are moved into a fresh controller, which opens the ledger")?;
    let (ledger, opened) = Ledger::open(device);
    match opened {
        Ok((found, strays)) => {
            println!(rt; "  {found} transactions are found, {strays} strays were cleared")?;
            tell_ledger(rt, &ledger, issued(issues, found))
        }
        Err(fault) => say(rt, Err(LedgerRefusal(fault))),
    }
}

// The fresh controller has one cache over both cards.
pub fn tell_moving<L: Device + Drop, R: Device + Drop>(
    rt: &HostRuntime,
    left: L,
    right: R,
    issues: &[Issue],
) -> anyhow::Result<()> {
    tell_opening(rt, Cache::new(Mirror::new(left, right)), issues)
}
