// The crash-safety law of stores, over every run, and a call that works a script.

#![tactic(auto)]

mod deeds;
mod run;
mod script;
mod tokens;

pub use run::work;
pub use script::{Answer, Call};
