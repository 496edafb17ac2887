// A bench device: sectors in the caller's bytes, and power that fails where a plan says so.

#![tactic(auto)]

ghost use Rattle.bench.specs.Plan.{Known, Fit};
ghost use Rattle.std.specs.Prelude.{◌≡◌, ◌<◌, ◌*◌, ◌↔◌, IfOk, IsTrue, length};

use device::{Device, DeviceFault, SECTOR};

mod loan;
mod plan;

pub use loan::{Work, lend};
use plan::{Fate, Supply};

// Whether a device can be made over these.
fn fit(bytes: &[u8], flags: &[u8], plan: &[u8]) -> bool
    ensures { IsTrue result ↔ Fit bytes.now flags.now plan.now }
{
    bytes.len().is_multiple_of(SECTOR) && bytes.len() / SECTOR == flags.len() && plan::known(plan)
}

/// Sectors in the caller's bytes, 128 bytes each, with a flag for each that is not 0 where the sector is spoiled. Every
/// call works on the same bytes and flags. The three slices are lent for lifetimes of their own: under one lifetime only
/// the lengths of what the caller gets back would be known.
#[derive(Drop)]
pub struct Bench<'b, 'f, 'p> {
    // Sector after sector, as the caller lends them.
    bytes: &'b mut [u8],
    flags: &'f mut [u8],
    supply: Supply<'p>,
    origin: u8,
    ghost fit: { length bytes.now ≡ 128 * length flags.now },
    ghost known: { Known supply.codes.now },
}

impl<'b, 'f, 'p> Bench<'b, 'f, 'p> {
    ghost use Rattle.bench.specs.Calls.{Made, Ready, Filled, Stored};
    ghost use Rattle.bench.specs.Card.{card, cell, sectors};
    ghost use Rattle.bench.specs.Loan.{SameLoan, LentThese};
    ghost use Rattle.device.specs.Meaning.{Admitted};

    /// A device that is on, with no code of the plan taken. It is refused, as unfit, unless there are 128 bytes for
    /// each flag and no code is above 3. Of a device that comes in a `Result` it is not known afterwards that it was
    /// over the caller's slices: where that matters, see `lend`.
    pub fn new(
        bytes: &'b mut [u8],
        flags: &'f mut [u8],
        plan: &'p [u8],
        origin: u8,
    ) -> Result<Bench<'b, 'f, 'p>, DeviceFault>
        ensures made { Made bytes.old flags.old plan.now origin result }
        ensures loan { IfOk result (LentThese bytes.entry flags.entry) }
    {
        if fit(bytes, flags, plan) {
            let supply = Supply {
                codes: plan,
                on: true,
            };
            Ok(Bench {
                bytes,
                flags,
                supply,
                origin,
            })
        } else {
            Err(DeviceFault::Unfit)
        }
    }

    // Whether a call with this sector and so many bytes may go on.
    fn admit(&self, sector: usize, size: usize) -> Result<(), DeviceFault>
        ensures { Admitted self.now.supply.on (sectors (card self.now)) self.now.origin sector size result }
    {
        device::admit(self.supply.on, self.flags.len(), self.origin, sector, size)
    }

    // Copies a sector out.
    fn fetch(&self, sector: usize, buffer: &mut [u8])
        requires { (sector < sectors (card self.now)) × (length buffer.old ≡ 128) }
        ensures { buffer.new ≡ cell (card self.now) sector }
    {
        let bytes = &*self.bytes;
        let start = SECTOR * sector;
        buffer.copy_from_slice(&bytes[start..start + SECTOR]);
    }

    // Writes a sector, which is then not spoiled.
    fn fill(&mut self, sector: usize, new: &[u8])
        requires { (sector < sectors (card self.old)) × (length new.now ≡ 128) }
        ensures filled { Filled (card self.old) sector new.now (card self.new) }
        ensures loan { SameLoan self.old self.new }
    {
        let start = SECTOR * sector;
        self.bytes[start..start + SECTOR].copy_from_slice(new);
        self.flags[sector] = 0;
    }

    // Writes a sector as the next code of the plan says.
    fn store(&mut self, sector: usize, bytes: &[u8]) -> Result<(), DeviceFault>
        requires { Ready (card self.old) sector (length bytes.now) }
        ensures stored { Stored (card self.old) sector bytes.now result (card self.new) }
        ensures loan { SameLoan self.old self.new }
    {
        let fate = self.supply.take();
        match fate {
            Fate::Done | Fate::New => self.fill(sector, bytes),
            Fate::Old => {}
            Fate::Spoiled => self.flags[sector] = 1,
        }
        if fate == Fate::Done {
            Ok(())
        } else {
            Err(DeviceFault::Power(self.origin))
        }
    }
}

impl<'b, 'f, 'p> Device for Bench<'b, 'f, 'p> {
    ghost use Rattle.bench.specs.Calls.{Stored, Fetched, Waited, Woken};
    ghost use Rattle.bench.specs.Card.{card, model, sectors};
    ghost use Rattle.bench.specs.Loan.{SameLoan};
    ghost use Rattle.device.specs.Meaning.{Read, Write, Barrier, Restart};

    ghost disk = { λ b. model (card b) };

    fn sectors(&self) -> usize
        ensures { result ≡ sectors (card self.now) }
    {
        self.flags.len()
    }

    // A buffer that is refused stays as it was.
    fn read(&mut self, sector: usize, buffer: &mut [u8]) -> Result<(), DeviceFault>
        ensures meaning { Read (model (card self.old)) sector buffer.old result (model (card self.new)) buffer.new }
        ensures exact { Fetched (card self.old) sector buffer.old result (card self.new) buffer.new }
        ensures loan { SameLoan self.old self.new }
    {
        self.admit(sector, buffer.len())?;
        if self.flags[sector] != 0 {
            return Err(DeviceFault::Spoiled(sector, self.origin));
        }
        self.fetch(sector, buffer);
        Ok(())
    }

    fn write(&mut self, sector: usize, bytes: &[u8]) -> Result<(), DeviceFault>
        ensures meaning { Write (model (card self.old)) sector bytes.now result (model (card self.new)) }
        ensures exact { Stored (card self.old) sector bytes.now result (card self.new) }
        ensures loan { SameLoan self.old self.new }
    {
        self.admit(sector, bytes.len())?;
        self.store(sector, bytes)
    }

    fn barrier(&mut self) -> Result<(), DeviceFault>
        ensures meaning { Barrier (model (card self.old)) result (model (card self.new)) }
        ensures exact { Waited (card self.old) result (card self.new) }
        ensures loan { SameLoan self.old self.new }
    {
        if self.supply.on {
            Ok(())
        } else {
            Err(DeviceFault::Power(0))
        }
    }

    // The plan goes on where it was.
    fn restart(&mut self) -> Result<(), DeviceFault>
        ensures meaning { Restart (model (card self.old)) result (model (card self.new)) }
        ensures exact { Woken (card self.old) result (card self.new) }
        ensures loan { SameLoan self.old self.new }
    {
        self.supply.on = true;
        Ok(())
    }
}
