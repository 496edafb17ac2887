// The tests that come before a call does anything, in their order.
ghost use Rattle.std.specs.Prelude.{◌≤◌, [], ◌∷◌};
ghost use Rattle.arrayvec.specs.ArrayVec.{array_vec_len};
ghost use Rattle.transactions.specs.Rows.{first_fit, off as off-row, serials as serials-row, token_rows, commit_rows, begin_rows};
ghost use Rattle.transactions.specs.Steps.{Passes};
ghost use Rattle.transactions.specs.Truncation.{crowded};

use crate::fault::StoreFault;
use crate::spool::SPOOL;
use crate::state::State;
use device::DeviceFault;
use record::{PAGES, SERIALS};

// The greatest serial.
const MOST: u64 = SERIALS - 1;

// Records that a truncation may need: a page record for each page, and a mark.
const RESERVE: usize = PAGES + 1;

impl State {
    // Where the store is off, nothing else is looked at.
    pub(crate) fn awake(&self) -> Result<(), StoreFault>
        ensures { Passes (first_fit (off-row self.now ∷ [])) result }
    {
        if !self.on {
            return Err(StoreFault::Device(DeviceFault::Power(0)));
        }
        Ok(())
    }

    // No second transaction begins.
    pub(crate) fn may_begin(&self) -> Result<(), StoreFault>
        ensures { Passes (first_fit (begin_rows self.now)) result }
    {
        self.awake()?;
        if self.busy {
            return Err(StoreFault::Busy(self.log.ordinal + 1));
        }
        Ok(())
    }

    // A token fits by its number alone.
    pub(crate) fn shown(&self, number: u64) -> Result<(), StoreFault>
        ensures { Passes (first_fit (token_rows self.now number)) result }
    {
        self.awake()?;
        if !(self.busy && number == self.log.ordinal + 1) {
            return Err(StoreFault::Stranger(number));
        }
        Ok(())
    }

    // There are serials for what waits and a truncation.
    pub(crate) fn has_serials(&self) -> Result<(), StoreFault>
        ensures { Passes (first_fit (serials-row self.now 0 ∷ [])) result }
    {
        if self.written_to() + RESERVE as u64 > MOST {
            return Err(StoreFault::Serials(self.log.last));
        }
        Ok(())
    }

    // There is log for what waits, so many page records and a mark.
    pub(crate) fn has_log(&self, due: usize) -> Result<(), StoreFault>
        requires { due ≤ 64 }
        ensures { Passes (first_fit (crowded self.now due ∷ [])) result }
    {
        let needed = self.live() + (self.spool.len() + due + 1) as u64;
        let room = self.log.places as u64;
        if needed > room {
            return Err(StoreFault::Full(needed - room));
        }
        Ok(())
    }

    // There are serials, log and, where they are not written, spool for so many records.
    pub(crate) fn may_commit(&self, records: usize, flush: bool) -> Result<(), StoreFault>
        requires { records ≤ 79 }
        ensures { Passes (first_fit (commit_rows self.now records flush)) result }
    {
        let waiting = self.spool.len() + records;
        if self.log.last + waiting as u64 + RESERVE as u64 > MOST {
            return Err(StoreFault::Serials(self.log.last));
        }
        let needed = self.live() + waiting as u64;
        let room = (self.log.places - RESERVE) as u64;
        if needed > room {
            return Err(StoreFault::Full(needed - room));
        }
        if !flush && waiting > SPOOL {
            return Err(StoreFault::SpoolFull(waiting - SPOOL));
        }
        Ok(())
    }
}
