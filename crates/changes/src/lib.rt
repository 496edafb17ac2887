// Changes of the book: each is one transaction of the store.

#![tactic(auto)]

mod linking;
mod performing;
mod planned;
mod putting;

pub use performing::{link_cells, perform};
