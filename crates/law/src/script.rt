// Scripts: the calls that a run makes, and what they answer.
use transactions::StoreFault;

/// A call of a script. A token is named by its place among those that the script lends.
#[derive(Clone, Copy)]
pub enum Call<'a> {
    // These two need a device that lies alone, the others a store that works on one.
    Format,
    Open,
    Close,
    // Begins a transaction, and puts its token into this place.
    Begin {
        place: usize,
    },
    // Declares so many bytes from the first on.
    SetRange {
        place: usize,
        start: usize,
        size: usize,
    },
    // Writes these bytes from the first on.
    Write {
        place: usize,
        start: usize,
        bytes: &'a [u8],
    },
    // Reads from byte `start` of the memory on into the script's buffer, from its byte `first` up to `end`.
    Read {
        start: usize,
        first: usize,
        end: usize,
    },
    Commit {
        place: usize,
        flush: bool,
    },
    Abort {
        place: usize,
    },
    Flush,
    Truncate,
}

/// What a call answers.
#[derive(Clone, Copy)]
pub enum Answer {
    // It did not fit where the run stood, and was not made: no store works, or one does already; there is no such place,
    // no token in it, or one already; or the buffer has no such part.
    NotMade,
    Formatted(Result<(), StoreFault>),
    // How many transactions were found, and how many strays were cleared.
    Opened(Result<(u64, usize), StoreFault>),
    Closed,
    // The number of the token.
    Begun(Result<u64, StoreFault>),
    Declared(Result<(), StoreFault>),
    Written(Result<(), StoreFault>),
    Read(Result<(), StoreFault>),
    // The ordinal, and how many records.
    Committed(Result<(u64, usize), StoreFault>),
    Aborted(Result<(), StoreFault>),
    // How many records.
    Flushed(Result<usize, StoreFault>),
    // How many pages were dirty.
    Truncated(Result<usize, StoreFault>),
}
