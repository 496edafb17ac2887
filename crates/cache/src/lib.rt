// A write cache over any device: it holds up to eight sectors, and sends them down in turn.

#![tactic(auto, using(crate::proofs::Slots::fits_wrote, crate::proofs::Slots::fits_read, crate::proofs::Slots::fits_rest, crate::proofs::Calls::restarts))]

ghost use Rattle.cache.specs.Held.{Fits, Fits-prop};
ghost use Rattle.std.specs.Prelude.{◌≡◌, ◌<◌, true, false, [], length, OnOk};

mod held;

use device::{Device, DeviceFault, Power};
use held::{Held, Slot};

// The origin that a layer tells where it refuses a call itself, or is off.
const ORIGIN: u8 = 0;

// The device below, the sectors that are held back from it, the longest held first, and what is known
// of the power below. It holds only sectors of that device.
#[derive(Drop)]
pub struct Cache<D: Device> {
    below: D,
    held: Held,
    power: Power,
    pub ghost sound: { Fits (D.Device.disk below) held } by { Fits-prop (D.Device.disk below) held },
}

impl<D: Device> Cache<D> {
    ghost use Rattle.cache.specs.Exact.{Asked, Reads, Barriers};
    ghost use Rattle.cache.specs.Held.{is_held};
    ghost use Rattle.cache.specs.State.{state, disk_of};
    ghost use Rattle.device.specs.Meaning.{Read, Barrier};
    ghost use Rattle.cache.specs.Steps.{SendsOne, MakesRoom};

    // A cache over this device that is on and holds nothing.
    pub fn new(below: D) -> Self
        ensures below { result.below ≡ below }
        ensures held { result.held ≡ [] }
        ensures on { result.power.on ≡ true }
        ensures told { result.power.told ≡ 0 }
    {
        Cache {
            below,
            held: Held::new(),
            power: Power::new(),
        }
    }

    // Sends the longest held sector down; it stays held where power fails.
    fn send_one(&mut self) -> Result<(), DeviceFault>
        requires { 0 < length self.old.held }
        ensures { SendsOne (state self.old) result (state self.new) }
    {
        let oldest = self.held.oldest();
        self.power
            .hand_up(self.below.write(oldest.sector, &oldest.bytes))?;
        self.held.drop_oldest();
        Ok(())
    }

    // Sends the longest held sector down where there is no room for one more.
    fn make_room(&mut self) -> Result<(), DeviceFault>
        ensures makes { MakesRoom (state self.old) result (state self.new) }
        ensures room { OnOk result (length self.new.held < 8) }
    {
        if self.held.is_full() {
            self.send_one()?;
        }
        Ok(())
    }

    // Reads a sector that is not held.
    fn read_below(&mut self, sector: usize, buffer: &mut [u8]) -> Result<(), DeviceFault>
        requires asked { Asked (state self.old) sector (length buffer.old) }
        requires absent { is_held sector self.old.held ≡ false }
        ensures meaning { Read (disk_of (state self.old)) sector buffer.old result (disk_of (state self.new)) buffer.new }
        ensures exact { Reads (state self.old) sector buffer.old result (state self.new) buffer.new }
    {
        self.power.hand_up(self.below.read(sector, buffer))
    }

    // Sends all held sectors down, the longest held first, and settles them there.
    fn empty(&mut self) -> Result<(), DeviceFault>
        requires { self.old.power.on ≡ true }
        ensures meaning { Barrier (disk_of (state self.old)) result (disk_of (state self.new)) }
        ensures exact { Barriers (state self.old) result (state self.new) }
    {
        // No iterator, since one that can't be sent down stays held.
        while !self.held.is_empty() {
            self.send_one()?;
        }
        self.power.hand_up(self.below.barrier())
    }
}

impl<D: Device> Device for Cache<D> {
    ghost use Rattle.cache.specs.Exact.{Reads, Writes, Barriers, Restarts};
    ghost use Rattle.cache.specs.State.{state, disk_of};
    ghost use Rattle.device.specs.Meaning.{Read, Write, Barrier, Restart};

    ghost disk = { λ c. disk_of (state c) };

    fn sectors(&self) -> usize
        ensures meaning { result ≡ (disk_of (state self.now)).plate.sectors }
        ensures exact { result ≡ (D.Device.disk self.now.below).plate.sectors }
    {
        self.below.sectors()
    }

    fn read(&mut self, sector: usize, buffer: &mut [u8]) -> Result<(), DeviceFault>
        ensures meaning { Read (disk_of (state self.old)) sector buffer.old result (disk_of (state self.new)) buffer.new }
        ensures exact { Reads (state self.old) sector buffer.old result (state self.new) buffer.new }
    {
        device::admit(self.power.on, self.sectors(), ORIGIN, sector, buffer.len())?;
        if let Some(slot) = self.held.find(sector) {
            buffer.copy_from_slice(&slot.bytes);
            return Ok(());
        }
        self.read_below(sector, buffer)
    }

    fn write(&mut self, sector: usize, bytes: &[u8]) -> Result<(), DeviceFault>
        ensures meaning { Write (disk_of (state self.old)) sector bytes.now result (disk_of (state self.new)) }
        ensures exact { Writes (state self.old) sector bytes.now result (state self.new) }
    {
        device::admit(self.power.on, self.sectors(), ORIGIN, sector, bytes.len())?;
        let slot = Slot::new(sector, bytes);
        if self.held.find(sector).is_some() {
            self.held.rewrite(slot);
            return Ok(());
        }
        self.make_room()?;
        self.held.push(slot);
        Ok(())
    }

    fn barrier(&mut self) -> Result<(), DeviceFault>
        ensures meaning { Barrier (disk_of (state self.old)) result (disk_of (state self.new)) }
        ensures exact { Barriers (state self.old) result (state self.new) }
    {
        if !self.power.on {
            return Err(DeviceFault::Power(ORIGIN));
        }
        self.empty()
    }

    fn restart(&mut self) -> Result<(), DeviceFault>
        ensures meaning { Restart (disk_of (state self.old)) result (disk_of (state self.new)) }
        ensures exact { Restarts (state self.old) result (state self.new) }
    {
        self.held.clear();
        self.power.hand_up(self.below.restart())
    }
}
