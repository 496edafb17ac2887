// The conservation law of ledgers, over every run: what a ledger conserves while power may fail in any call.

#![tactic(auto)]

mod deeds;
mod run;
mod script;
mod whole;

pub use script::{Answer, Call};
pub use whole::{Script, work};
