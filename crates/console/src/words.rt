// The words of a command: numbers in decimal, bytes in hex, tags, a list of codes.
use hex::FromHexError;
use std::alloc::{AllocError, Global};
use std::error::Error;
use std::fmt;
use std::str::FromStr;

// Why a line is no command.
#[derive(Clone, Copy, Debug)]
pub enum LineFault {
    // It says nothing that the console knows, or its words don't parse.
    Bad,
    // Memory ran out while it was read.
    OutOfMemory(AllocError),
}

impl fmt::Display for LineFault {
    fn fmt<W: fmt::Write>(&self, f: &mut fmt::Formatter<W>) -> fmt::Result {
        match self {
            LineFault::Bad => f.write_str("bad line"),
            LineFault::OutOfMemory(fault) => write!(f, "{fault}"),
        }
    }
}

impl Error for LineFault {}

impl From<AllocError> for LineFault {
    fn from(fault: AllocError) -> Self {
        LineFault::OutOfMemory(fault)
    }
}

impl From<FromHexError> for LineFault {
    fn from(fault: FromHexError) -> Self {
        match fault {
            FromHexError::OutOfMemory => LineFault::OutOfMemory(AllocError),
            _ => LineFault::Bad,
        }
    }
}

// A decimal number that fits its type: digits alone, where the library's parse would take a sign.
pub fn number<N: FromStr>(word: &str) -> Result<N, LineFault>
where
    N::Err: Drop,
{
    if word.starts_with('+') {
        return Err(LineFault::Bad);
    }
    word.parse().map_err(|_| LineFault::Bad)
}

// A size up to `most`.
pub fn size_to(word: &str, most: usize) -> Result<usize, LineFault> {
    let size = number(word)?;
    if size > most {
        return Err(LineFault::Bad);
    }
    Ok(size)
}

// Bytes, two hex digits each; `-` stands for none. The library's decode would take upper case too.
pub fn bytes(heap: Global, word: &str) -> Result<Vec<u8>, LineFault> {
    if word == "-" {
        return Ok(Vec::new(heap));
    }
    if word.is_empty() || word.bytes().any(|digit| digit.is_ascii_uppercase()) {
        return Err(LineFault::Bad);
    }
    Ok(hex::decode(heap, word)?)
}

// A tag: 8 bytes.
pub fn tag(heap: Global, word: &str) -> Result<[u8; 8], LineFault> {
    bytes(heap, word)?
        .as_slice()
        .try_into()
        .map_err(|_| LineFault::Bad)
}

// The codes of a power plan, with commas between; `-` stands for none.
pub fn codes(heap: Global, word: &str) -> Result<Vec<u8>, LineFault> {
    if word == "-" {
        return Ok(Vec::new(heap));
    }
    word.split(',').map(number).try_collect(heap)
}
