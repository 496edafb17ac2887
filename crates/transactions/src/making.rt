// A store's state as a format or an opening makes it.
ghost use Rattle.transactions.specs.Pages.{TableStands};
ghost use Rattle.transactions.specs.State.{Blank, Formatted, Opened};

use crate::fault::StoreFault;
use crate::log::Log;
use crate::spool::Spool;
use crate::state::State;
use device::Device;
use image::{Image, MEMORY};
use journal::PageTable;
use record::PAGES;
use recovery::{format_log, open_log};

// A store that is off, with nothing in it. The number of places is any that a log may have.
pub(crate) fn off() -> State
    ensures { Blank result }
{
    State {
        image: Image::zeros(),
        spool: Spool::new(),
        log: Log {
            places: 160,
            low: 0,
            last: 0,
            ordinal: 0,
        },
        pages: PageTable::new(),
        busy: false,
        on: false,
    }
}

// Formats the device, and sets the store on zeros.
pub(crate) fn format_into<D: Device>(device: &mut D, state: &mut State) -> Result<(), StoreFault>
    requires { Blank state.old }
    ensures formatted { Formatted (D.Device.disk device.old) result (D.Device.disk device.new) state.new }
    ensures table { TableStands state.new (D.Device.disk device.new) }
{
    let places = format_log(device)?;
    state.log = Log {
        places,
        low: 1,
        last: 1,
        ordinal: 0,
    };
    state.on = true;
    Ok(())
}

// Opens the device, and sets the store on what was found. The memory is made in its place: until that is done, all of
// its bytes are declared, and where it is cut short nothing is left of it.
pub(crate) fn open_into<D: Device>(
    device: &mut D,
    state: &mut State,
) -> Result<(u64, usize), StoreFault>
    requires { Blank state.old }
    ensures opened { Opened (D.Device.disk device.old) result (D.Device.disk device.new) state.new }
    ensures table { TableStands state.new (D.Device.disk device.new) }
{
    let sectors = device.sectors();
    state.image.declare(0, MEMORY)?;
    let found = match open_log(device, &mut state.image.memory) {
        Ok(found) => found,
        Err(fault) => {
            *state = off();
            return Err(StoreFault::from(fault));
        }
    };
    state.image.keep();
    state.log = Log {
        places: sectors - PAGES,
        low: found.low,
        last: found.last,
        ordinal: found.ordinal,
    };
    state.pages = found.pages;
    state.on = true;
    Ok((found.ordinal, found.strays))
}
