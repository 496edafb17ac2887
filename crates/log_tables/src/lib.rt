// Tables of what the sectors of a log say, and of what a store makes of them.

#![tactic(auto)]

ghost use Rattle.std.specs.Prelude.{◌≡◌};

use device::{Device, DeviceFault};

// A layer that counts the reads of the device below, and passes everything on.
#[derive(Drop)]
pub struct Counted<D> {
    pub below: D,
    pub reads: usize,
}

impl<D: Device> Counted<D> {
    pub(crate) fn new(below: D) -> Self
        ensures { (result.below ≡ below) × (result.reads ≡ 0) }
    {
        Counted { below, reads: 0 }
    }
}

impl<D: Device> Device for Counted<D> {
    ghost disk = { λ c. D.Device.disk c.below };

    fn sectors(&self) -> usize {
        self.below.sectors()
    }

    fn read(&mut self, sector: usize, buffer: &mut [u8]) -> Result<(), DeviceFault> {
        self.reads = self.reads.saturating_add(1);
        self.below.read(sector, buffer)
    }

    fn write(&mut self, sector: usize, bytes: &[u8]) -> Result<(), DeviceFault> {
        self.below.write(sector, bytes)
    }

    fn barrier(&mut self) -> Result<(), DeviceFault> {
        self.below.barrier()
    }

    fn restart(&mut self) -> Result<(), DeviceFault> {
        self.below.restart()
    }
}

#[cfg(test)]
mod tests;
