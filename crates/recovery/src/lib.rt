// The log of a device from outside: making a new one, opening what is there, and writing a record.

#![tactic(auto)]

mod clearing;
mod fault;
mod format;
mod opening;
mod places;
mod reading;

pub use fault::RecoveryFault;
pub use format::{format_log, write_record};
pub use journal::MEMORY;
pub use opening::{Recovery, open_log};
pub use reading::{Mention, note_at};
