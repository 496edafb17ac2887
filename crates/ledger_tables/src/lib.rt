// Tables of ledger calls with the answers that they must give.

#![tactic(auto)]

use book::{Entry, LedgerFault};
use device::Device;
use ledger::Ledger;

// What is changed in the book, each by one transaction.
#[derive(Clone, Copy)]
pub enum Change {
    // An account, and how much is issued to it.
    Issue(u16, u64),
    // The payer, the payee and the amount.
    Transfer(u16, u16, u64),
    // A tag, and the guard's account.
    Visit([u8; 8], u16),
    // A tag, and the account that it is to have.
    Enrol([u8; 8], u16),
    DropTag([u8; 8]),
    // The account whose front entry is taken off.
    Collect(u16),
}

#[derive(Clone, Copy)]
pub enum Call {
    // A change that is flushed.
    Keep(Change),
    // A change that may wait.
    Spool(Change),
    Find([u8; 8]),
    Balance(u16),
    Flush,
    Truncate,
    // Closes the ledger and opens it again on its device.
    Reopen,
}

// What a call that is not refused answers.
#[derive(Clone, Copy, PartialEq, Eq, Debug)]
pub enum Told {
    // The ordinal of a change.
    Ordinal(u64),
    // The ordinal, and the entry that was taken off.
    Collected(u64, Entry),
    // The account that a tag has, if there is such a tag.
    Owner(Option<u16>),
    Balance(u64),
    // How many records were written, or how many pages were dirty.
    Count(usize),
    // How many transactions are found, and how many strays were cleared.
    Pair(u64, usize),
}

pub type Answer = Result<Told, LedgerFault>;

// Makes a change.
fn make_change<D: Device>(ledger: &mut Ledger<D>, change: Change, flush: bool) -> Answer {
    match change {
        Change::Issue(account, amount) => ledger.issue(account, amount, flush).map(Told::Ordinal),
        Change::Transfer(payer, payee, amount) => ledger
            .transfer(payer, payee, amount, flush)
            .map(Told::Ordinal),
        Change::Visit(tag, guard) => ledger.visit(&tag, guard, flush).map(Told::Ordinal),
        Change::Enrol(tag, account) => ledger.enrol(&tag, account, flush).map(Told::Ordinal),
        Change::DropTag(tag) => ledger.drop_tag(&tag, flush).map(Told::Ordinal),
        Change::Collect(account) => ledger
            .collect(account, flush)
            .map(|(ordinal, entry)| Told::Collected(ordinal, entry)),
    }
}

// Opens the ledger that a device holds.
pub(crate) fn open<D: Device>(device: D) -> (Ledger<D>, Answer) {
    let (ledger, answer) = Ledger::open(device);
    (
        ledger,
        answer.map(|(found, strays)| Told::Pair(found, strays)),
    )
}

// Makes one call of the ledger.
pub(crate) fn play<D: Device>(mut ledger: Ledger<D>, call: Call) -> (Ledger<D>, Answer) {
    let answer = match call {
        Call::Keep(what) => make_change(&mut ledger, what, true),
        Call::Spool(what) => make_change(&mut ledger, what, false),
        Call::Find(tag) => ledger.find(&tag).map(Told::Owner),
        Call::Balance(account) => ledger.balance(account).map(Told::Balance),
        Call::Flush => ledger.flush().map(Told::Count),
        Call::Truncate => ledger.truncate().map(Told::Count),
        Call::Reopen => return open(ledger.close()),
    };
    (ledger, answer)
}

#[cfg(test)]
mod tests;
