// A recoverable store over any device: its memory, its transactions and its log.

#![tactic(auto)]

ghost use Rattle.transactions.specs.Dirty.{PagesByRule};

mod calls;
mod changes;
mod fault;
mod homes;
mod log;
mod making;
mod order;
mod pages;
mod rows;
mod spool;
mod spooling;
mod state;
mod store;
mod token;
mod truncation;
mod writing;

pub use fault::StoreFault;
pub use image::MEMORY;
pub use log::Log;
pub use order::tests_come_in_order;
pub use spool::{Spool, Spooled};
pub use state::State;
pub use store::Store;
pub use token::Token;

/// Names the theorem that a page is among the dirty ones just where a record that is live or waits names it, and among
/// the due ones where none covers it too; each is there once, the lowest first.
pub fn pages_are_by_rule()
    ensures { PagesByRule }
{}
