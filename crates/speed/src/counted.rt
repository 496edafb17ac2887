// A layer that counts what reaches the device below it.
ghost use Rattle.std.specs.Prelude.{◌≡◌};

use device::{Device, DeviceFault};

/// How many calls passed, of each kind that touches a sector or settles.
#[derive(Clone, Copy)]
pub struct Counts {
    pub reads: u64,
    pub writes: u64,
    pub barriers: u64,
}

/// A device that is as the one below, and counts. The counts wrap, which no run comes to.
#[derive(Drop)]
pub struct Counted<D> {
    device: D,
    counts: Counts,
}

impl<D> Counted<D> {
    pub fn new(device: D) -> Counted<D>
        ensures { result.device ≡ device }
    {
        let counts = Counts {
            reads: 0,
            writes: 0,
            barriers: 0,
        };
        Counted { device, counts }
    }

    pub fn counts(&self) -> Counts
        ensures { result ≡ self.now.counts }
    {
        self.counts
    }
}

impl<D: Device> Device for Counted<D> {
    ghost disk = { λ c. D.Device.disk c.device };

    fn sectors(&self) -> usize {
        self.device.sectors()
    }

    fn read(&mut self, sector: usize, buffer: &mut [u8]) -> Result<(), DeviceFault> {
        self.counts.reads = self.counts.reads.wrapping_add(1);
        self.device.read(sector, buffer)
    }

    fn write(&mut self, sector: usize, bytes: &[u8]) -> Result<(), DeviceFault> {
        self.counts.writes = self.counts.writes.wrapping_add(1);
        self.device.write(sector, bytes)
    }

    fn barrier(&mut self) -> Result<(), DeviceFault> {
        self.counts.barriers = self.counts.barriers.wrapping_add(1);
        self.device.barrier()
    }

    fn restart(&mut self) -> Result<(), DeviceFault> {
        self.device.restart()
    }
}
