// What a mirror does on its two sides, in its order.

ghost use Rattle.std.specs.Prelude.{◌≡◌, length};
ghost use Rattle.device.specs.Meaning.{Addressed};
ghost use Rattle.mirror.specs.View.{view};
ghost use Rattle.mirror.specs.Sides.{mirrored, Writes, Settles, Restarts, Reads};

use crate::Mirror;
use device::{Device, DeviceFault};

// One function with the steps as closures is no plainer than these: its contract would speak of what each step answers.
// Each says that it leaves the power alone: a struct of the two sides for these four alone is no plainer.
impl<L: Device, R: Device> Mirror<L, R> {
    // Writes a sector on the right side, settles it there, and only then writes it on the left.
    pub(crate) fn write_in_turn(&mut self, sector: usize, bytes: &[u8]) -> Result<(), DeviceFault>
        requires { Addressed (mirrored (view L.Device R.Device self.old)) sector (length bytes.now) }
        ensures work { Writes sector bytes.now (view L.Device R.Device self.old) result (view L.Device R.Device self.new) }
        ensures power { self.new.power ≡ self.old.power }
    {
        self.right.write(sector, bytes)?;
        // Were the left touched before this, power could spoil the sector on both.
        Device::barrier(&mut self.right)?;
        self.left.write(sector, bytes)
    }

    pub(crate) fn settle_in_turn(&mut self) -> Result<(), DeviceFault>
        ensures work { Settles (view L.Device R.Device self.old) result (view L.Device R.Device self.new) }
        ensures power { self.new.power ≡ self.old.power }
    {
        self.right.barrier()?;
        self.left.barrier()
    }

    pub(crate) fn restart_in_turn(&mut self) -> Result<(), DeviceFault>
        ensures work { Restarts (view L.Device R.Device self.old) result (view L.Device R.Device self.new) }
        ensures power { self.new.power ≡ self.old.power }
    {
        self.right.restart()?;
        self.left.restart()
    }

    // Reads from the left side, or from the right one where the left is spoiled.
    pub(crate) fn read_in_turn(
        &mut self,
        sector: usize,
        buffer: &mut [u8],
    ) -> Result<(), DeviceFault>
        requires { Addressed (mirrored (view L.Device R.Device self.old)) sector (length buffer.old) }
        ensures work { Reads sector buffer.old buffer.new (view L.Device R.Device self.old) result (view L.Device R.Device self.new) }
        ensures power { self.new.power ≡ self.old.power }
    {
        match self.left.read(sector, buffer) {
            Err(DeviceFault::Spoiled(_, _)) => self.right.read(sector, buffer),
            answer => answer,
        }
    }
}
