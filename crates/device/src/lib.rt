// What a block device promises the code above it, also when power fails.

#![tactic(auto)]

ghost use Rattle.device.specs.Disk.{Disk};
ghost use Rattle.device.specs.Meaning.{Admitted, Read, Write, Barrier, Restart};
ghost use Rattle.std.specs.Prelude.{◌≡◌};

mod fault;
mod power;

pub use fault::DeviceFault;
pub use power::Power;

// The number of bytes in a sector.
pub const SECTOR: usize = 128;

// A device, by its model: how many sectors, on or off, what each sector shows and what may stand there.
pub trait Device {
    ghost disk: { Self → Disk };

    fn sectors(&self) -> usize
        ensures { result ≡ (disk self.now).plate.sectors };

    fn read(&mut self, sector: usize, buffer: &mut [u8]) -> Result<(), DeviceFault>
        ensures { Read (disk self.old) sector buffer.old result (disk self.new) buffer.new };

    fn write(&mut self, sector: usize, bytes: &[u8]) -> Result<(), DeviceFault>
        ensures { Write (disk self.old) sector bytes.now result (disk self.new) };

    fn barrier(&mut self) -> Result<(), DeviceFault>
        ensures { Barrier (disk self.old) result (disk self.new) };

    fn restart(&mut self) -> Result<(), DeviceFault>
        ensures { Restart (disk self.old) result (disk self.new) };
}

// The tests that come before any work on a sector: a device that is off answers that first, then a
// sector that is not there or a buffer that doesn't fit is refused.
// A struct of the first three is no plainer: each device would make one for this call alone.
pub fn admit(
    on: bool,
    sectors: usize,
    origin: u8,
    sector: usize,
    length: usize,
) -> Result<(), DeviceFault>
    ensures { Admitted on sectors origin sector length result }
{
    if !on {
        return Err(DeviceFault::Power(0));
    }
    if sector >= sectors || length != SECTOR {
        return Err(DeviceFault::Misaddressed(sector, origin));
    }
    Ok(())
}
