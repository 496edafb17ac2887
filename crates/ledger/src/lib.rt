// The ledger: accounts with paid visits, tags that belong to sites, and entries that say who was paid.

#![tactic(auto)]

mod changing;
mod flushing;
mod ledger;
mod looking;
mod making;

pub use ledger::Ledger;
