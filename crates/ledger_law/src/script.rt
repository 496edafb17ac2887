// Scripts of a ledger: the calls that a run makes, and what they answer.
use book::{Entry, LedgerFault};

/// A call of a script.
#[derive(Clone, Copy)]
pub enum Call {
    // These two need a device that lies alone, the others a ledger that works on one.
    Make,
    Open,
    Close,
    Issue {
        account: u16,
        amount: u64,
        flush: bool,
    },
    Move {
        payer: u16,
        payee: u16,
        amount: u64,
        flush: bool,
    },
    // Pays 1 from the account of the tag to a guard's.
    Visit {
        tag: [u8; 8],
        guard: u16,
        flush: bool,
    },
    Enrol {
        tag: [u8; 8],
        account: u16,
        flush: bool,
    },
    Drop {
        tag: [u8; 8],
        flush: bool,
    },
    // Takes off the front entry of the account.
    Collect {
        account: u16,
        flush: bool,
    },
    Find {
        tag: [u8; 8],
    },
    Balance {
        account: u16,
    },
    Flush,
    Truncate,
}

/// What a call answers.
#[derive(Clone, Copy)]
pub enum Answer {
    // It did not fit where the run stood, and was not made: no ledger works, or one does already.
    NotMade,
    Made(Result<(), LedgerFault>),
    // How many transactions were found, and how many strays were cleared.
    Opened(Result<(u64, usize), LedgerFault>),
    Closed,
    // The ordinal of a change.
    Changed(Result<u64, LedgerFault>),
    // The ordinal, and the entry that was taken off.
    Collected(Result<(u64, Entry), LedgerFault>),
    // The account that the tag has, if there is such a tag.
    Found(Result<Option<u16>, LedgerFault>),
    Balance(Result<u64, LedgerFault>),
    // How many records.
    Flushed(Result<usize, LedgerFault>),
    // How many pages were dirty.
    Truncated(Result<usize, LedgerFault>),
}
