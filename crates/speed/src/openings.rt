// Openings, each of the same log.
use crate::commits::put;
use crate::counted::{Counted, Counts};
use crate::random::Random;
use crate::refused::Refused;
use device::Device;
use transactions::{Store, StoreFault};

// How many words the memory has.
const WORDS: usize = 768;

// Commits random words, so many or as many as fit.
fn fill_log<D: Device>(store: &mut Store<D>, commits: usize) -> Result<(), StoreFault> {
    let mut random = Random::new();
    for _ in 0..commits {
        let place = random.place(WORDS as u64);
        let word = random.next_number();
        match put(store, place, word, true) {
            Err(StoreFault::Full(_)) => return Ok(()),
            answer => answer?,
        }
    }
    Ok(())
}

// Looks at what was opened, so that no compiler drops what an opening makes.
fn look<D: Device>(store: &mut Store<D>, place: usize) -> Result<(), StoreFault> {
    let token = store.begin()?;
    let declared = store.set_range(&token, place, 8);
    store.abort(token)?;
    declared?;
    let mut word = [0u8; 8];
    store.read(place, &mut word)
}

// What is measured: one opening, with a look at it.
#[inline(never)]
fn open_once<D: Device + Drop>(device: D, place: usize) -> Result<D, StoreFault> {
    let (mut store, opened) = Store::open(device);
    opened?;
    look(&mut store, place)?;
    Ok(store.close())
}

pub fn openings<D: Device + Drop>(
    device: Counted<D>,
    commits: usize,
    count: usize,
) -> Result<Counts, Refused> {
    let (mut store, made) = Store::format(device);
    made?;
    fill_log(&mut store, commits)?;
    let mut device = store.close();
    for i in 0..count {
        device = open_once(device, i % WORDS * 8)?;
    }
    Ok(device.counts())
}
