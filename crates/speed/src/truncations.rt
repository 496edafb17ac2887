// Truncations, each after the same records.
use crate::commits::{fill, finish};
use crate::counted::{Counted, Counts};
use crate::refused::Refused;
use device::Device;
use transactions::{Store, StoreFault, Token};

// The most runs that a transaction declares.
const RUNS: usize = 16;

// Fills one word in each of so many pages from this record on, record i in page i mod `pages`.
fn fill_pages<D: Device>(
    store: &mut Store<D>,
    token: &Token,
    pages: usize,
    records: std::ops::Range<usize>,
    word: u64,
) -> Result<(), StoreFault> {
    for i in records {
        fill(store, token, (i % pages.max(1)).min(63) * 96 + 8, word)?;
    }
    Ok(())
}

// Makes so many records of so many pages, with as many in a transaction as may be.
fn soil<D: Device>(
    store: &mut Store<D>,
    pages: usize,
    records: usize,
    word: u64,
) -> Result<(), StoreFault> {
    let most = pages.clamp(1, RUNS);
    for first in (0..records).step_by(most) {
        let token = store.begin()?;
        let end = first.saturating_add(most).min(records);
        let filled = fill_pages(store, &token, pages, first..end, word);
        finish(store, token, filled, true)?;
    }
    Ok(())
}

// What is measured: one truncation.
#[inline(never)]
fn truncate_once<D: Device>(store: &mut Store<D>) -> Result<(), StoreFault> {
    store.truncate()?;
    Ok(())
}

pub fn truncations<D: Device + Drop>(
    device: Counted<D>,
    pages: usize,
    records: usize,
    count: usize,
) -> Result<Counts, Refused> {
    let (mut store, made) = Store::format(device);
    made?;
    for i in 0..count {
        soil(&mut store, pages, records, i as u64)?;
        truncate_once(&mut store)?;
    }
    Ok(store.close().counts())
}
