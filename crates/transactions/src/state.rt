// What a store keeps in memory, apart from the device.
ghost use Rattle.std.specs.Prelude.{◌+◌, ◌^◌, ◌<◌, ◌≤◌};
ghost use Rattle.arrayvec.specs.ArrayVec.{array_vec_len};

use crate::log::Log;
use crate::spool::Spool;
use image::Image;
use journal::PageTable;

#[derive(Drop)]
pub struct State {
    // The memory, as it is and as at begin, and what is declared.
    pub image: Image,
    pub spool: Spool,
    pub log: Log,
    // What the live records and those that wait say of pages, while the store is on.
    pub pages: PageTable,
    // A transaction is open. Each pair of this and the next occurs, so an enum would name all four.
    pub busy: bool,
    // A store is off after failing power, and after a format or an opening that was refused.
    pub on: bool,
    // There are serials for all that waits.
    ghost bounded: { log.last + array_vec_len spool < 2 ^ 63 },
    // Each transaction has records, written or spooled.
    ghost numbered: { log.ordinal ≤ log.last + array_vec_len spool },
}

impl State {
    ghost use Rattle.std.specs.Prelude.{◌≡◌};
    ghost use Rattle.transactions.specs.State.{live};

    // The last serial once all that waits is written.
    pub(crate) fn written_to(&self) -> u64
        ensures { result ≡ self.now.log.last + array_vec_len self.now.spool }
    {
        self.log.last + self.spool.len() as u64
    }

    // How many serials there are from low to the last one written.
    pub(crate) fn live(&self) -> u64
        ensures { result ≡ live self.now }
    {
        (self.log.last + 1).saturating_sub(self.log.low)
    }
}
