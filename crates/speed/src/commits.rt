// Small transactions, each of one word of 8 bytes.
use crate::counted::{Counted, Counts};
use crate::random::Random;
use crate::refused::Refused;
use device::Device;
use std::alloc::Global;
use transactions::{Store, StoreFault, Token};

// How many places are drawn before the first transaction.
const PLACES: usize = 65_536;

/// Declares the word at `place`, and writes it.
pub fn fill<D: Device>(
    store: &mut Store<D>,
    token: &Token,
    place: usize,
    word: u64,
) -> Result<(), StoreFault> {
    let bytes = word.to_le_bytes();
    store.set_range(token, place, bytes.len())?;
    store.write(token, place, &bytes)
}

/// Commits what was filled in; where that was refused, the transaction is aborted.
pub fn finish<D: Device>(
    store: &mut Store<D>,
    token: Token,
    filled: Result<(), StoreFault>,
    flush: bool,
) -> Result<(), StoreFault> {
    if let Err(fault) = filled {
        store.abort(token)?;
        return Err(fault);
    }
    store.commit(token, flush)?;
    Ok(())
}

/// One transaction of one word.
pub fn put<D: Device>(
    store: &mut Store<D>,
    place: usize,
    word: u64,
    flush: bool,
) -> Result<(), StoreFault> {
    let token = store.begin()?;
    let filled = fill(store, &token, place, word);
    finish(store, token, filled, flush)
}

// The same, after a truncation where the log is full.
fn put_with_room<D: Device>(
    store: &mut Store<D>,
    place: usize,
    word: u64,
    flush: bool,
) -> Result<(), StoreFault> {
    match put(store, place, word, flush) {
        Err(StoreFault::Full(_)) => {
            store.truncate()?;
            put(store, place, word, flush)
        }
        answer => answer,
    }
}

// Does so many of them, at these places in turn. Where they wait, each eighth is followed by a flush.
fn put_all<D: Device>(
    store: &mut Store<D>,
    places: &[usize],
    flush: bool,
    count: usize,
) -> Result<(), StoreFault> {
    for i in 0..count {
        let place = places.get(i % PLACES).copied().unwrap_or_default();
        put_with_room(store, place, i as u64, flush)?;
        if !flush && i % 8 == 7 {
            store.flush()?;
        }
    }
    Ok(())
}

pub fn commits<D: Device + Drop>(
    heap: Global,
    device: Counted<D>,
    words: u64,
    flush: bool,
    count: usize,
) -> anyhow::Result<Counts> {
    let mut random = Random::new();
    let mut places = vec![in heap; 0usize; PLACES]?;
    for place in places.iter_mut() {
        *place = random.place(words);
    }
    let (mut store, made) = Store::format(device);
    made.map_err(Refused::from)?;
    put_all(&mut store, &places, flush, count).map_err(Refused::from)?;
    Ok(store.close().counts())
}
