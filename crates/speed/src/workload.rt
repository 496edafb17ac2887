// The workloads by name, and how often each is done.
use crate::commits::commits;
use crate::counted::{Counted, Counts};
use crate::openings::openings;
use crate::refused::Refused;
use crate::truncations::truncations;
use crate::visits::visits;
use anyhow::{Context, bail};
use device::Device;
use std::alloc::Global;
use std::fmt;

#[derive(Clone, Copy, PartialEq, Eq)]
pub enum Workload {
    // Transactions of 8 bytes at one of the first so many words of the memory. Each is flushed; or they wait, and
    // each eighth is followed by a flush.
    Commits { words: u64, flush: bool },
    // Visits of a ledger.
    Visits,
    // Openings of a log of so many places, after so many commits, or as many as fit.
    Openings { places: usize, commits: usize },
    // Truncations where so many records wait in turn on so many pages.
    Truncations { pages: usize, records: usize },
}

impl fmt::Display for Workload {
    fn fmt<W: fmt::Write>(&self, f: &mut fmt::Formatter<W>) -> fmt::Result {
        match *self {
            Workload::Commits { words, flush: true } => write!(f, "commits {words}"),
            Workload::Commits {
                words,
                flush: false,
            } => write!(f, "spooled {words}"),
            Workload::Visits => f.write_str("visits"),
            Workload::Openings { places, commits } => write!(f, "openings {places} {commits}"),
            Workload::Truncations { pages, records } => write!(f, "truncations {pages} {records}"),
        }
    }
}

impl Workload {
    /// How many sectors the card has: the log's, and 64 homes.
    pub fn sectors(&self) -> usize {
        match self {
            Workload::Openings { places, .. } => places.saturating_add(64),
            _ => 224,
        }
    }

    /// Does it so often.
    pub fn work<D: Device + Drop>(
        self,
        heap: Global,
        device: Counted<D>,
        count: usize,
    ) -> anyhow::Result<Counts> {
        match self {
            Workload::Commits { words, flush } => commits(heap, device, words, flush, count),
            Workload::Visits => Ok(visits(device, count)?),
            Workload::Openings { places: _, commits } => Ok(openings(device, commits, count)?),
            Workload::Truncations { pages, records } => {
                Ok(truncations(device, pages, records, count)?)
            }
        }
    }
}

/// A workload, and how often it is done.
#[derive(Clone, Copy)]
pub struct Task {
    pub workload: Workload,
    pub count: usize,
}

// A number among the words.
fn number(words: &[String], index: usize) -> anyhow::Result<usize> {
    let Some(word) = words.get(index) else {
        bail!("a number is missing");
    };
    let number = word.parse::<usize>();
    number.context(format_args!("reading {word}"))
}

impl Task {
    /// A task as the command line names it: the name, the count, and the numbers of the workload.
    pub fn parse(words: &[String]) -> anyhow::Result<Task> {
        let Some(name) = words.first() else {
            bail!("no workload is named");
        };
        let workload = match name.as_str() {
            "commits" => Workload::Commits {
                words: number(words, 2)? as u64,
                flush: true,
            },
            "spooled" => Workload::Commits {
                words: number(words, 2)? as u64,
                flush: false,
            },
            "visits" => Workload::Visits,
            "openings" => Workload::Openings {
                places: number(words, 2)?,
                commits: number(words, 3)?,
            },
            "truncations" => Workload::Truncations {
                pages: number(words, 2)?,
                records: number(words, 3)?,
            },
            _ => bail!("there is no workload of this name"),
        };
        let count = number(words, 1)?;
        Ok(Task { workload, count })
    }
}
