// The ledger's book: accounts, tags and entries as the memory holds them, and what each change makes of it.

#![tactic(auto)]

mod conserved;
mod fault;
mod layout;
mod records;

pub use conserved::a_book_is_conserved;
pub use fault::LedgerFault;
pub use layout::{
    ACCOUNTS, BUCKETS, CELL, CELLS, Chain, TOTAL, TOTALS, balance_at, bucket_of, cell_at,
    is_account,
};
pub use records::{CONTENT, CellRecord, Entry, Tag};
