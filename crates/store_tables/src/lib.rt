// Tables of store calls with the answers that they must give.

#![tactic(auto)]

use device::Device;
use transactions::{Store, StoreFault, Token};

// What is done with the token that is held.
#[derive(Clone, Copy)]
pub enum Deed<'a> {
    Begin,
    SetRange(usize, usize),
    Write(usize, &'a [u8]),
    Commit(bool),
    Abort,
}

#[derive(Clone, Copy)]
pub enum Call<'a> {
    With(Deed<'a>),
    // Holds the token that was laid aside, and lays aside the one that was held.
    Swap,
    // Reads one byte.
    Byte(usize),
    Flush,
    Truncate,
    // Closes the store and opens it again on its device.
    Reopen,
}

// What a call that is not refused answers.
#[derive(Clone, Copy, PartialEq, Eq, Debug)]
pub enum Told {
    // No call was made: there was no token to make it with, or one was held already.
    Idle,
    Done,
    Token(u64),
    Byte(u8),
    // How many records were written, or how many pages were dirty.
    Count(usize),
    // An ordinal, and how many records or strays.
    Pair(u64, usize),
}

pub type Answer = Result<Told, StoreFault>;

// A store, the token that is held, and one that was laid aside.
pub struct Desk<D: Device> {
    store: Store<D>,
    held: Option<Token>,
    aside: Option<Token>,
}

fn begin<D: Device>(store: &mut Store<D>) -> (Option<Token>, Answer) {
    match store.begin() {
        Ok(token) => {
            let number = token.number();
            (Some(token), Ok(Told::Token(number)))
        }
        Err(fault) => (None, Err(fault)),
    }
}

fn act<D: Device>(
    store: &mut Store<D>,
    held: Option<Token>,
    deed: Deed,
) -> (Option<Token>, Answer) {
    match (held, deed) {
        (None, Deed::Begin) => begin(store),
        (None, _) => (None, Ok(Told::Idle)),
        (Some(token), Deed::Begin) => (Some(token), Ok(Told::Idle)),
        (Some(token), Deed::SetRange(start, size)) => {
            let answer = store.set_range(&token, start, size);
            (Some(token), answer.map(|()| Told::Done))
        }
        (Some(token), Deed::Write(start, bytes)) => {
            let answer = store.write(&token, start, bytes);
            (Some(token), answer.map(|()| Told::Done))
        }
        (Some(token), Deed::Commit(flush)) => {
            let answer = store.commit(token, flush);
            (
                None,
                answer.map(|(ordinal, count)| Told::Pair(ordinal, count)),
            )
        }
        (Some(token), Deed::Abort) => (None, store.abort(token).map(|()| Told::Done)),
    }
}

fn byte<D: Device>(store: &Store<D>, place: usize) -> Answer {
    let mut buffer = [0u8; 1];
    store.read(place, &mut buffer)?;
    Ok(Told::Byte(buffer[0]))
}

fn reopen<D: Device>(store: Store<D>) -> (Store<D>, Answer) {
    let (store, answer) = Store::open(store.close());
    (
        store,
        answer.map(|(found, strays)| Told::Pair(found, strays)),
    )
}

// Spends a token that is still there.
fn spend<D: Device>(store: &mut Store<D>, token: Option<Token>) {
    if let Some(token) = token {
        let _ = store.abort(token);
    }
}

impl<D: Device> Desk<D> {
    // A new store on the device.
    pub(crate) fn format(device: D) -> (Self, Answer) {
        let (store, answer) = Store::format(device);
        (Desk::over(store), answer.map(|()| Told::Done))
    }

    // The store that the device holds.
    pub(crate) fn open(device: D) -> (Self, Answer) {
        let (store, answer) = Store::open(device);
        let desk = Desk::over(store);
        (
            desk,
            answer.map(|(found, strays)| Told::Pair(found, strays)),
        )
    }

    fn over(store: Store<D>) -> Self {
        Desk {
            store,
            held: None,
            aside: None,
        }
    }

    // Makes one call of the store.
    pub(crate) fn play(mut self, call: Call) -> (Self, Answer) {
        match call {
            Call::With(deed) => {
                let (held, answer) = act(&mut self.store, self.held, deed);
                self.held = held;
                (self, answer)
            }
            Call::Swap => {
                let Desk { store, held, aside } = self;
                let desk = Desk {
                    store,
                    held: aside,
                    aside: held,
                };
                (desk, Ok(Told::Done))
            }
            Call::Byte(place) => {
                let answer = byte(&self.store, place);
                (self, answer)
            }
            Call::Flush => {
                let answer = self.store.flush().map(Told::Count);
                (self, answer)
            }
            Call::Truncate => {
                let answer = self.store.truncate().map(Told::Count);
                (self, answer)
            }
            Call::Reopen => {
                let (store, answer) = reopen(self.store);
                self.store = store;
                (self, answer)
            }
        }
    }

    // Spends the tokens that are still there, and gives back the device.
    pub(crate) fn end(self) -> D {
        let Desk {
            mut store,
            held,
            aside,
        } = self;
        spend(&mut store, held);
        spend(&mut store, aside);
        store.close()
    }
}

#[cfg(test)]
mod tests;
