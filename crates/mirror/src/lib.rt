// A mirror: two devices that hold the same, so that a sector spoiled on one is read from the other.

#![tactic(auto)]

ghost use Rattle.std.specs.Prelude.{◌≡◌, ◌<◌, min, true, length};
ghost use Rattle.device.specs.Disk.{Disk};
ghost use Rattle.device.specs.Meaning.{Read, Write, Barrier, Restart, on_after, told_after};
ghost use Rattle.mirror.specs.View.{view};
ghost use Rattle.mirror.specs.Sides.{mirrored, Writes, Settles, Restarts, Reads, Worked};

use device::{Device, DeviceFault, Power};

mod turns;

// Two devices as one. Any failure on either side turns it off until a restart succeeds.
#[derive(Drop)]
pub struct Mirror<L, R> {
    left: L,
    right: R,
    power: Power,
}

impl<L: Device, R: Device> Mirror<L, R> {
    pub fn new(left: L, right: R) -> Self
        ensures { (result.left ≡ left) × (result.right ≡ right) × (result.power.on ≡ true) × (result.power.told ≡ 0) }
    {
        Mirror {
            left,
            right,
            power: Power::new(),
        }
    }
}

impl<L: Device, R: Device> Device for Mirror<L, R> {
    ghost disk = { λ m. mirrored (view L.Device R.Device m) };

    fn sectors(&self) -> usize {
        self.left.sectors().min(self.right.sectors())
    }

    fn read(&mut self, sector: usize, buffer: &mut [u8]) -> Result<(), DeviceFault>
        ensures meaning { Read (mirrored (view L.Device R.Device self.old)) sector buffer.old result (mirrored (view L.Device R.Device self.new)) buffer.new }
        ensures exact { Worked (Reads sector buffer.old buffer.new) (view L.Device R.Device self.old) result (view L.Device R.Device self.new) }
    {
        device::admit(self.power.on, self.sectors(), 0, sector, buffer.len())?;
        let answer = self.read_in_turn(sector, buffer);
        self.power.hand_up(answer)
    }

    fn write(&mut self, sector: usize, bytes: &[u8]) -> Result<(), DeviceFault>
        ensures meaning { Write (mirrored (view L.Device R.Device self.old)) sector bytes.now result (mirrored (view L.Device R.Device self.new)) }
        ensures exact { Worked (Writes sector bytes.now) (view L.Device R.Device self.old) result (view L.Device R.Device self.new) }
    {
        device::admit(self.power.on, self.sectors(), 0, sector, bytes.len())?;
        let answer = self.write_in_turn(sector, bytes);
        self.power.hand_up(answer)
    }

    fn barrier(&mut self) -> Result<(), DeviceFault>
        ensures meaning { Barrier (mirrored (view L.Device R.Device self.old)) result (mirrored (view L.Device R.Device self.new)) }
        ensures exact { Worked Settles (view L.Device R.Device self.old) result (view L.Device R.Device self.new) }
    {
        if !self.power.on {
            return Err(DeviceFault::Power(0));
        }
        let answer = self.settle_in_turn();
        self.power.hand_up(answer)
    }

    fn restart(&mut self) -> Result<(), DeviceFault>
        ensures meaning { Restart (mirrored (view L.Device R.Device self.old)) result (mirrored (view L.Device R.Device self.new)) }
        ensures exact { Restarts (view L.Device R.Device self.old) result (view L.Device R.Device self.new) × (self.new.power.on ≡ on_after result) × (self.new.power.told ≡ told_after self.old.power.told result) }
    {
        let answer = self.restart_in_turn();
        self.power.hand_up(answer)
    }
}
