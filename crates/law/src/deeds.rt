// The calls of a script on a store that works, one at a time.
ghost use Rattle.law.specs.Deeds.{DoesBegin, DoesDeclare, DoesWrite, DoesCommit, DoesAbort, DoesRead, DoesFlush, DoesTruncate, Does};
ghost use Rattle.std.specs.Prelude.{◌≡◌, ◌≢◌, None, slice_set};
ghost use Rattle.transactions.specs.Held.{held};

use crate::script::{Answer, Call};
use crate::tokens::{is_free, put, shown, take};
use device::Device;
use transactions::{Store, Token};

// Begins a transaction, where the place is there and empty.
fn begin<D: Device>(store: &mut Store<D>, places: &mut [Option<Token>], place: usize) -> Answer
    ensures { DoesBegin places.old place (held store.old) result (held store.new) places.new }
{
    if !is_free(places, place) {
        return Answer::NotMade;
    }
    match store.begin() {
        Ok(token) => {
            let number = token.number();
            put(store, &mut places[place], token);
            Answer::Begun(Ok(number))
        }
        Err(fault) => Answer::Begun(Err(fault)),
    }
}

fn set_range<D: Device>(
    store: &mut Store<D>,
    places: &[Option<Token>],
    place: usize,
    start: usize,
    size: usize,
) -> Answer
    ensures { DoesDeclare places.now place start size (held store.old) result (held store.new) }
{
    match shown(places, place) {
        Some(token) => Answer::Declared(store.set_range(token, start, size)),
        None => Answer::NotMade,
    }
}

fn write<D: Device>(
    store: &mut Store<D>,
    places: &[Option<Token>],
    place: usize,
    start: usize,
    bytes: &[u8],
) -> Answer
    ensures { DoesWrite places.now place start bytes.now (held store.old) result (held store.new) }
{
    match shown(places, place) {
        Some(token) => Answer::Written(store.write(token, start, bytes)),
        None => Answer::NotMade,
    }
}

fn read<D: Device>(
    store: &Store<D>,
    buffer: &mut [u8],
    start: usize,
    first: usize,
    end: usize,
) -> Answer
    ensures { DoesRead start first end (held store.now) buffer.old result buffer.new }
{
    if first > end || end > buffer.len() {
        return Answer::NotMade;
    }
    Answer::Read(store.read(start, &mut buffer[first..end]))
}

fn commit<D: Device>(
    store: &mut Store<D>,
    places: &mut [Option<Token>],
    place: usize,
    flush: bool,
) -> Answer
    ensures commits { DoesCommit places.old place flush (held store.old) result (held store.new) }
    ensures taken { places.new ≡ slice_set places.old place None }
{
    match take(places, place) {
        Some(token) => Answer::Committed(store.commit(token, flush)),
        None => Answer::NotMade,
    }
}

fn abort<D: Device>(store: &mut Store<D>, places: &mut [Option<Token>], place: usize) -> Answer
    ensures aborts { DoesAbort places.old place (held store.old) result (held store.new) }
    ensures taken { places.new ≡ slice_set places.old place None }
{
    match take(places, place) {
        Some(token) => Answer::Aborted(store.abort(token)),
        None => Answer::NotMade,
    }
}

fn flush<D: Device>(store: &mut Store<D>) -> Answer
    ensures { DoesFlush (held store.old) result (held store.new) }
{
    Answer::Flushed(store.flush())
}

fn truncate<D: Device>(store: &mut Store<D>) -> Answer
    ensures { DoesTruncate (held store.old) result (held store.new) }
{
    Answer::Truncated(store.truncate())
}

// Makes one call on a store that works, other than close: that one gives the store up.
pub(crate) fn deed<D: Device>(
    store: &mut Store<D>,
    call: Call,
    places: &mut [Option<Token>],
    buffer: &mut [u8],
) -> Answer
    requires { call ≢ Call.Close }
    ensures { Does call.entry (held store.old) places.old buffer.old result (held store.new) places.new buffer.new }
{
    match call {
        Call::Format | Call::Open | Call::Close => Answer::NotMade,
        Call::Begin { place } => begin(store, places, place),
        Call::SetRange { place, start, size } => set_range(store, places, place, start, size),
        Call::Write {
            place,
            start,
            bytes,
        } => write(store, places, place, start, bytes),
        Call::Read { start, first, end } => read(store, buffer, start, first, end),
        Call::Commit { place, flush } => commit(store, places, place, flush),
        Call::Abort { place } => abort(store, places, place),
        Call::Flush => flush(store),
        Call::Truncate => truncate(store),
    }
}
