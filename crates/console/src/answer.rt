// What the console answers to a command.
use crate::card::{Dump, Shown};
use book::{Entry, LedgerFault};
use device::DeviceFault;
use std::fmt;
use transactions::StoreFault;

// One answer to a command; a dump alone is of several lines.
#[derive(Drop)]
pub enum Answer<'a> {
    Done,
    // How many sectors there are, records were written, or pages were dirty.
    Count(usize),
    // What a read found.
    Bytes(Vec<u8>),
    // How many transactions an opening found, and how many strays it cleared.
    Found(u64, usize),
    // The number of the token that a begin gave.
    Begun(u64),
    // The ordinal of a commit, and how many records it became.
    Committed(u64, usize),
    // The ordinal of a change of the ledger.
    Changed(u64),
    // The ordinal of a collection, and the entry that it took off.
    Collected(u64, Entry),
    // The account of a tag, if it is there.
    Account(Option<u16>),
    Balance(u64),
    Shown(Shown<'a>),
    Dump(Dump<'a>),
}

impl fmt::Display for Answer<'_> {
    fn fmt<W: fmt::Write>(&self, f: &mut fmt::Formatter<W>) -> fmt::Result {
        match self {
            Answer::Done => f.write_str("ok"),
            Answer::Count(count) => write!(f, "ok {count}"),
            Answer::Bytes(bytes) => {
                let text = Hex(bytes.as_slice());
                write!(f, "ok {text}")
            }
            Answer::Begun(number) | Answer::Changed(number) | Answer::Balance(number) => {
                write!(f, "ok {number}")
            }
            Answer::Found(number, count) | Answer::Committed(number, count) => {
                write!(f, "ok {number} {count}")
            }
            Answer::Collected(ordinal, Entry { amount, payee }) => {
                write!(f, "ok {ordinal} {amount} {payee}")
            }
            Answer::Account(Some(account)) => write!(f, "ok {account}"),
            Answer::Account(None) => f.write_str("ok none"),
            Answer::Shown(shown) => write!(f, "{shown}"),
            Answer::Dump(dump) => write!(f, "{dump}"),
        }
    }
}

// Why a command is not done.
#[derive(Clone, Copy)]
pub enum Refusal {
    // It does not fit where the program stands.
    NotNow,
    // The ledger says no, or the store or the device, whose faults that of the ledger holds.
    Ledger(LedgerFault),
}

impl From<LedgerFault> for Refusal {
    fn from(fault: LedgerFault) -> Self {
        Refusal::Ledger(fault)
    }
}

impl From<StoreFault> for Refusal {
    fn from(fault: StoreFault) -> Self {
        Refusal::Ledger(fault.into())
    }
}

impl From<DeviceFault> for Refusal {
    fn from(fault: DeviceFault) -> Self {
        Refusal::from(StoreFault::from(fault))
    }
}

// The values that a refusal returns, each with a space before it.
fn write_values<W: fmt::Write>(f: &mut fmt::Formatter<W>, fault: &LedgerFault) -> fmt::Result {
    match fault {
        LedgerFault::Store(fault) => write_store_values(f, fault),
        LedgerFault::NotLedger => Ok(()),
        LedgerFault::Account(account)
        | LedgerFault::Present(account)
        | LedgerFault::Same(account)
        | LedgerFault::Nothing(account)
        | LedgerFault::NoCell(account)
        | LedgerFault::NoEntry(account) => write!(f, " {account}"),
        LedgerFault::Unknown(bucket) => write!(f, " {bucket}"),
        LedgerFault::Short(value) | LedgerFault::Total(value) => write!(f, " {value}"),
    }
}

fn write_store_values<W: fmt::Write>(f: &mut fmt::Formatter<W>, fault: &StoreFault) -> fmt::Result {
    for value in fault.values().iter() {
        write!(f, " {value}")?;
    }
    Ok(())
}

impl fmt::Display for Refusal {
    fn fmt<W: fmt::Write>(&self, f: &mut fmt::Formatter<W>) -> fmt::Result {
        match self {
            Refusal::NotNow => f.write_str("not now"),
            Refusal::Ledger(fault) => {
                let number = fault.number();
                write!(f, "no {number}")?;
                write_values(f, fault)
            }
        }
    }
}

// Bytes as the console writes them: two hex digits each, or `-` for none.
#[derive(Clone, Copy)]
pub struct Hex<'a>(pub &'a [u8]);

impl fmt::Display for Hex<'_> {
    fn fmt<W: fmt::Write>(&self, f: &mut fmt::Formatter<W>) -> fmt::Result {
        if self.0.is_empty() {
            return f.write_str("-");
        }
        for b in self.0 {
            write!(f, "{b:02x}")?;
        }
        Ok(())
    }
}
