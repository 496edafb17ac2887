// Records that wait to be written.
ghost use Rattle.std.specs.Prelude.{◌≡◌, ◌+◌, ◌<◌, ◌≤◌, length};

use arrayvec::ArrayVec;
use image::PAGE;

/// A part of a transaction, with its bytes as they were at commit. It gets its serial and low when it is written.
// Its bytes are an array with a number beside it: a vector of fixed room is no `Copy`, and a part is.
#[derive(Clone, Copy)]
pub struct Spooled {
    pub ordinal: u64,
    pub page: u16,
    pub offset: u16,
    /// How many of the bytes are the part's; what follows them means nothing.
    pub size: u16,
    pub last: bool,
    pub bytes: [u8; PAGE],
    ghost paged: { page < 64 },
    ghost some: { 1 ≤ size },
    ghost within: { offset + size ≤ 96 },
    ghost sized: { length bytes ≡ 96 },
}

// What stands where no part was put yet. By hand: a derive would make a part without bytes.
impl Default for Spooled {
    fn default() -> Self {
        Spooled {
            ordinal: 0,
            page: 0,
            offset: 0,
            size: 1,
            last: false,
            bytes: [0; PAGE],
        }
    }
}

/// How many parts the spool holds.
pub const SPOOL: usize = 32;

/// The parts that wait, the oldest first.
pub type Spool = ArrayVec<Spooled, SPOOL>;
