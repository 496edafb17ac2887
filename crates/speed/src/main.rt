// The benchmark: workloads over a bench device, each told by what reached the card. `tools/speed.sh` counts the
// instructions of each, and holds them beside those of the same workloads in C.

#![tactic(auto)]

use bench::Bench;
use cards::Card;
use device::SECTOR;
use std::alloc::Global;
use std::env;

mod commits;
mod counted;
mod openings;
mod random;
mod refused;
mod truncations;
mod visits;
mod workload;

use counted::{Counted, Counts};
use refused::Refused;
use workload::{Task, Workload};

// What is run where no workload is named.
static SMALL: [Task; 7] = [
    Task {
        workload: Workload::Commits {
            words: 768,
            flush: true,
        },
        count: 300,
    },
    Task {
        workload: Workload::Commits {
            words: 12,
            flush: true,
        },
        count: 300,
    },
    Task {
        workload: Workload::Commits {
            words: 768,
            flush: false,
        },
        count: 300,
    },
    Task {
        workload: Workload::Commits {
            words: 12,
            flush: false,
        },
        count: 300,
    },
    Task {
        workload: Workload::Visits,
        count: 300,
    },
    Task {
        workload: Workload::Openings {
            places: 1024,
            commits: 1024,
        },
        count: 3,
    },
    Task {
        workload: Workload::Truncations {
            pages: 64,
            records: 64,
        },
        count: 3,
    },
];

// The FNV-1a hash, in 64 bits, of all sectors of a card.
fn hash(card: &Card) -> u64 {
    let mut hash = 0xcbf2_9ce4_8422_2325u64;
    for byte in card.sectors.as_slice().as_flattened() {
        hash = (hash ^ *byte as u64).wrapping_mul(0x100_0000_01b3);
    }
    hash
}

// Does a task on a new card, and tells what reached the card.
fn run(rt: &HostRuntime, task: Task) -> anyhow::Result<()> {
    let Task { workload, count } = task;
    let mut card = Card::blank(rt.alloc(), workload.sectors(), 1)?;
    let device = Counted::new(card.device().map_err(Refused::from)?);
    let Counts {
        reads,
        writes,
        barriers,
    } = workload.work(rt.alloc(), device, count)?;
    println!(rt;
        "{workload}: {count} operations, {writes} sector writes, {barriers} barriers, {reads} sector reads, card {:016x}",
        hash(&card)
    )?;
    Ok(())
}

// Does each task on a small count.
fn run_all(rt: &HostRuntime) -> anyhow::Result<()> {
    for task in &SMALL {
        run(rt, *task)?;
    }
    Ok(())
}

fn main(rt: HostRuntime) -> anyhow::Result<()> {
    let mut words = Vec::new(rt.alloc());
    for word in env::args(&rt)?.skip(1) {
        words.push(word)?;
    }
    match words.as_slice() {
        [] => run_all(&rt),
        words => run(&rt, Task::parse(words)?),
    }
}
