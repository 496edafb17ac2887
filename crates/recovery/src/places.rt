// How a device's sectors are divided between its log and the homes.
ghost use Rattle.std.specs.Prelude.{◌≡◌, ◌+◌, ◌%◌, ◌<◌, ◌≤◌};

use crate::fault::RecoveryFault;
use record::PAGES;

// The most sectors that a log may have, and the fewest.
pub(crate) const MOST: usize = 1024;

const LEAST: usize = 160;

// How many sectors a log has. The device's others, after them, are the homes of its pages. That a device
// has so many is asked where it is lent: a value that held both would owe that on every way out.
#[derive(Clone, Copy)]
pub(crate) struct Places {
    pub(crate) count: usize,
    ghost least: { 160 ≤ count },
    ghost most: { count ≤ 1024 },
}

impl Places {
    // The place of the record with this serial.
    pub(crate) fn place_of(self, serial: u64) -> usize
        ensures { result ≡ serial % self.count }
    {
        (serial % self.count as u64) as usize
    }

    // The sector that is this page's home. A page's number indexes arrays of 64 wherever there is one, so a type
    // for it would be made of an index and taken apart at once.
    pub(crate) fn home_of(self, page: usize) -> usize
        requires { page < 64 }
        ensures { result ≡ self.count + page }
    {
        self.count + page
    }

    // How many sectors the device has.
    pub(crate) fn sectors(self) -> usize
        ensures { result ≡ self.count + 64 }
    {
        self.count + PAGES
    }
}

impl TryFrom<usize> for Places {
    ghost use Rattle.recovery.specs.Opening.{Divided};

    type Error = RecoveryFault;

    ghost try_from_gives = { λ sectors r. Divided sectors r };

    fn try_from(sectors: usize) -> Result<Self, RecoveryFault> {
        if sectors < LEAST + PAGES || sectors > MOST + PAGES {
            return Err(RecoveryFault::Size(sectors));
        }
        Ok(Places {
            count: sectors - PAGES,
        })
    }
}
