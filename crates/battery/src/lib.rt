// A battery memory: a device with sectors of its own that never loses power.

#![tactic(auto)]

ghost use Rattle.battery.specs.Memory.{model, New, Fetched, Stored, Idle};
ghost use Rattle.std.specs.Prelude.{◌≡◌};
ghost use Rattle.device.specs.Meaning.{Read, Write, Barrier, Restart};

use device::{Device, DeviceFault, SECTOR};

// The number of sectors.
const SECTORS: usize = 224;

// A battery memory, by its sectors and the number that it tells as its origin.
#[derive(Drop)]
pub struct Battery {
    sectors: [[u8; SECTOR]; SECTORS],
    origin: u8,
}

impl Battery {
    // A memory of zeros.
    pub fn new(origin: u8) -> Self
        ensures { New origin result }
    {
        Battery {
            sectors: [[0u8; SECTOR]; SECTORS],
            origin,
        }
    }
}

impl Device for Battery {
    ghost disk = { model };

    fn sectors(&self) -> usize
        ensures { result ≡ 224 }
    {
        self.sectors.len()
    }

    // A buffer that is refused stays as it was.
    fn read(&mut self, sector: usize, buffer: &mut [u8]) -> Result<(), DeviceFault>
        ensures meaning { Read (model self.old) sector buffer.old result (model self.new) buffer.new }
        ensures exact { Fetched self.old sector buffer.old result self.new buffer.new }
    {
        device::admit(true, SECTORS, self.origin, sector, buffer.len())?;
        buffer.copy_from_slice(&self.sectors[sector]);
        Ok(())
    }

    fn write(&mut self, sector: usize, bytes: &[u8]) -> Result<(), DeviceFault>
        ensures meaning { Write (model self.old) sector bytes.now result (model self.new) }
        ensures exact { Stored self.old sector bytes.now result self.new }
    {
        device::admit(true, SECTORS, self.origin, sector, bytes.len())?;
        self.sectors[sector].copy_from_slice(bytes);
        Ok(())
    }

    fn barrier(&mut self) -> Result<(), DeviceFault>
        ensures meaning { Barrier (model self.old) result (model self.new) }
        ensures exact { Idle self.old result self.new }
    {
        Ok(()) // What was written stands already.
    }

    fn restart(&mut self) -> Result<(), DeviceFault>
        ensures meaning { Restart (model self.old) result (model self.new) }
        ensures exact { Idle self.old result self.new }
    {
        Ok(()) // It was never off.
    }
}
