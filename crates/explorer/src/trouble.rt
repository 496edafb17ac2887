// What may be wrong with a call or with what stands.
use book::LedgerFault;
use device::DeviceFault;
use std::error::Error;
use std::fmt;
use transactions::StoreFault;

#[derive(Clone, Copy, PartialEq, Eq, Debug)]
pub enum Trouble {
    // A call was refused.
    Refused(LedgerFault),
    // A change answered this ordinal.
    Ordinal(u64),
    // An opening found so many transactions.
    Found(u64),
    // This account has this balance.
    Balance(u16, u64),
    // The tag with this first byte has this account, or none.
    Owner(u8, Option<u16>),
    // The entries of this account are others.
    Entries(u16),
}

impl From<LedgerFault> for Trouble {
    fn from(fault: LedgerFault) -> Self {
        Trouble::Refused(fault)
    }
}

impl From<DeviceFault> for Trouble {
    fn from(fault: DeviceFault) -> Self {
        Trouble::Refused(LedgerFault::Store(StoreFault::Device(fault)))
    }
}

impl Error for Trouble {}

impl fmt::Display for Trouble {
    fn fmt<W: fmt::Write>(&self, f: &mut fmt::Formatter<W>) -> fmt::Result {
        match self {
            Trouble::Refused(fault) => {
                let number = fault.number();
                write!(f, "a call is refused, for reason {number}")
            }
            Trouble::Ordinal(ordinal) => write!(f, "a change is transaction {ordinal}"),
            Trouble::Found(found) => write!(f, "{found} transactions are found"),
            Trouble::Balance(account, balance) => { write!(f, "account {account} has {balance}") }
            Trouble::Owner(first, Some(account)) => {
                write!(f, "the tag that begins with {first} has account {account}")
            }
            Trouble::Owner(first, None) => {
                write!(f, "the tag that begins with {first} has no account")
            }
            Trouble::Entries(account) => { write!(f, "account {account} has other entries") }
        }
    }
}
