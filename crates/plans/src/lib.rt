// Plans of changes: a look at the memory of a ledger says what a change puts into it, or why it is refused.

#![tactic(auto)]

mod accounts;
mod checks;
mod found;
mod paying;
mod plan;
mod putting;
mod reading;
mod tags;
mod walking;

pub use accounts::{balance_of, plan_issue};
pub use paying::{plan_collect, plan_move, plan_visit};
pub use plan::{Issue, Payment, Plan, Relink};
pub use tags::{find_tag, plan_drop, plan_enrol};
