// The script that is played on each pile, and what stands after each of its transactions, worked out by hand.
use book::Entry;

// The accounts that have a part in it.
pub const SITE: u16 = 1;

pub const GUARD: u16 = 2;

pub const LAST: u16 = 64;

pub const ACCOUNTS: [u16; 3] = [SITE, GUARD, LAST];

// Two tags of one bucket, and one of the last bucket, whose head lies beside the first cell.
pub const FIRST: [u8; 8] = [1, 2, 3, 4, 5, 6, 7, 8];

pub const SECOND: [u8; 8] = [8, 7, 6, 5, 4, 3, 2, 1];

pub const EDGE: [u8; 8] = [0, 0, 0, 0, 0, 0, 0, 15];

pub const TAGS: [[u8; 8]; 3] = [FIRST, SECOND, EDGE];

// The entries that come to stand.
const TO_SITE: Entry = Entry {
    amount: 1,
    payee: SITE,
};

const TO_GUARD: Entry = Entry {
    amount: 1,
    payee: GUARD,
};

const TO_LAST: Entry = Entry {
    amount: 7,
    payee: LAST,
};

// What is changed in the book, each by one transaction.
#[derive(Clone, Copy)]
pub enum Change {
    // An account, and how much is issued to it.
    Issue(u16, u64),
    // The payer, the payee and the amount.
    Transfer(u16, u16, u64),
    // A tag, and the guard's account.
    Visit([u8; 8], u16),
    // A tag, and the account that it is to have.
    Enrol([u8; 8], u16),
    DropTag([u8; 8]),
    // The account whose front entry is taken off.
    Collect(u16),
}

#[derive(Clone, Copy)]
pub enum Step {
    // A change that is flushed.
    Keep(Change),
    // A change that may wait.
    Spool(Change),
    Flush,
    Truncate,
}

// The steps after the make. Both truncations have something that waits, and so has the end.
pub static SCRIPT: [Step; 18] = [
    Step::Keep(Change::Issue(SITE, 20)),
    Step::Keep(Change::Enrol(EDGE, SITE)),
    Step::Spool(Change::Issue(LAST, 5)),
    Step::Spool(Change::Enrol(FIRST, SITE)),
    Step::Spool(Change::Visit(FIRST, GUARD)),
    Step::Flush,
    Step::Keep(Change::Transfer(SITE, LAST, 7)),
    Step::Spool(Change::Enrol(SECOND, LAST)),
    Step::Truncate,
    Step::Spool(Change::DropTag(FIRST)),
    Step::Keep(Change::Visit(SECOND, SITE)),
    Step::Spool(Change::Collect(SITE)),
    Step::Truncate,
    Step::Keep(Change::Collect(SITE)),
    Step::Spool(Change::Transfer(GUARD, SITE, 1)),
    Step::Spool(Change::DropTag(SECOND)),
    Step::Flush,
    Step::Spool(Change::Issue(GUARD, 9)),
];

// What stands: the balances of the three accounts, the account of each of the three tags, and the entries of each of
// the three accounts, the front one first. Every other account has nothing.
#[derive(Clone, Copy)]
pub struct State(
    pub [u64; 3],
    pub [Option<u16>; 3],
    pub [&'static [Entry]; 3],
);

// What stands after each transaction: the make, and then each change of the script.
static STATES: [State; 15] = [
    State([0, 0, 0], [None, None, None], [&[], &[], &[]]),
    State([20, 0, 0], [None, None, None], [&[], &[], &[]]),
    State([20, 0, 0], [None, None, Some(SITE)], [&[], &[], &[]]),
    State([20, 0, 5], [None, None, Some(SITE)], [&[], &[], &[]]),
    State([20, 0, 5], [Some(SITE), None, Some(SITE)], [&[], &[], &[]]),
    State(
        [19, 1, 5],
        [Some(SITE), None, Some(SITE)],
        [&[TO_GUARD], &[], &[]],
    ),
    State(
        [12, 1, 12],
        [Some(SITE), None, Some(SITE)],
        [&[TO_LAST, TO_GUARD], &[], &[]],
    ),
    State(
        [12, 1, 12],
        [Some(SITE), Some(LAST), Some(SITE)],
        [&[TO_LAST, TO_GUARD], &[], &[]],
    ),
    State(
        [12, 1, 12],
        [None, Some(LAST), Some(SITE)],
        [&[TO_LAST, TO_GUARD], &[], &[]],
    ),
    State(
        [13, 1, 11],
        [None, Some(LAST), Some(SITE)],
        [&[TO_LAST, TO_GUARD], &[], &[TO_SITE]],
    ),
    State(
        [13, 1, 11],
        [None, Some(LAST), Some(SITE)],
        [&[TO_GUARD], &[], &[TO_SITE]],
    ),
    State(
        [13, 1, 11],
        [None, Some(LAST), Some(SITE)],
        [&[], &[], &[TO_SITE]],
    ),
    State(
        [14, 0, 11],
        [None, Some(LAST), Some(SITE)],
        [&[], &[TO_SITE], &[TO_SITE]],
    ),
    State(
        [14, 0, 11],
        [None, None, Some(SITE)],
        [&[], &[TO_SITE], &[TO_SITE]],
    ),
    State(
        [14, 9, 11],
        [None, None, Some(SITE)],
        [&[], &[TO_SITE], &[TO_SITE]],
    ),
];

// What stands after so many transactions; nothing does before the make.
pub fn standing_after(transactions: u64) -> Option<&'static State> {
    let (_, state) = (1u64..).zip(&STATES).find(|(n, _)| *n == transactions)?;
    Some(state)
}
