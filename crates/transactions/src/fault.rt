// Why a store says no. It holds the device's fault whole.
ghost use Rattle.transactions.specs.Fault.{number, values, from_recovery, from_image};
ghost use Rattle.transactions.specs.declared.fault.StoreFault.TheVariants.{Device};
ghost use Rattle.std.specs.Prelude.{◌≡◌, [], ◌∷◌};

use arrayvec::ArrayVec;
use device::DeviceFault;
use image::ImageFault;
use recovery::RecoveryFault;

#[derive(Clone, Copy, PartialEq, Eq, Debug)]
pub enum StoreFault {
    // The device said no: power failed, or the store is off.
    Device(DeviceFault),
    // The device has too few or too many sectors for a store.
    Size(usize),
    // No sector of the log holds a record.
    NoLog,
    // The record with this serial, which the log begins with, is no mark.
    NoMark(u64),
    // The home of this page is spoiled, and no record covers it.
    Uncovered(usize),
    // A transaction is open; it will have this ordinal.
    Busy(u64),
    // The token with this number is not the open transaction's.
    Stranger(u64),
    // The bytes from here on are none, or reach past the memory.
    Range(usize),
    // The bytes from here on would make more than 16 runs.
    Runs(usize),
    // This byte is not declared.
    Undeclared(usize),
    // Too few serials are left after this one.
    Serials(u64),
    // The log is full by so many records.
    Full(u64),
    // The spool is full by so many records.
    SpoolFull(usize),
}

impl From<DeviceFault> for StoreFault {
    ghost from_gives = { λ f r. r ≡ Device f };

    fn from(fault: DeviceFault) -> Self {
        StoreFault::Device(fault)
    }
}

// Case by case, here and below: nested, failing power would have two shapes, and a caller a match in a match.
impl From<RecoveryFault> for StoreFault {
    ghost from_gives = { λ f r. r ≡ from_recovery f };

    fn from(fault: RecoveryFault) -> Self {
        match fault {
            RecoveryFault::Device(fault) => StoreFault::Device(fault),
            RecoveryFault::Size(count) => StoreFault::Size(count),
            RecoveryFault::NoLog => StoreFault::NoLog,
            RecoveryFault::NoMark(low) => StoreFault::NoMark(low),
            RecoveryFault::Uncovered(page) => StoreFault::Uncovered(page),
        }
    }
}

impl From<ImageFault> for StoreFault {
    ghost from_gives = { λ f r. r ≡ from_image f };

    fn from(fault: ImageFault) -> Self {
        match fault {
            ImageFault::Range(start) => StoreFault::Range(start),
            ImageFault::Runs(start) => StoreFault::Runs(start),
            ImageFault::Undeclared(byte) => StoreFault::Undeclared(byte),
        }
    }
}

// The values of a refusal that returns one, and of one that returns two.
fn one(value: u64) -> ArrayVec<u64, 2>
    ensures { result.items ≡ value ∷ [] }
{
    let mut values = ArrayVec::new();
    values.push(value);
    values
}

fn two(first: u64, second: u64) -> ArrayVec<u64, 2>
    ensures { result.items ≡ first ∷ second ∷ [] }
{
    let mut values = one(first);
    values.push(second);
    values
}

impl StoreFault {
    /// The number of this refusal in the table of refusals, which is promised beside the enum and made of it alone.
    pub fn number(&self) -> u8
        ensures { result ≡ number self.now }
    {
        match self {
            StoreFault::Device(fault) => fault.number(),
            StoreFault::Size(_) => 5,
            StoreFault::NoLog => 6,
            StoreFault::NoMark(_) => 7,
            StoreFault::Uncovered(_) => 8,
            StoreFault::Busy(_) => 9,
            StoreFault::Stranger(_) => 10,
            StoreFault::Range(_) => 11,
            StoreFault::Runs(_) => 12,
            StoreFault::Undeclared(_) => 13,
            StoreFault::Serials(_) => 14,
            StoreFault::Full(_) => 15,
            StoreFault::SpoolFull(_) => 16,
        }
    }

    /// The values that this refusal returns, in their order: at most a sector and an origin.
    pub fn values(&self) -> ArrayVec<u64, 2>
        ensures { result.items ≡ values self.now }
    {
        match *self {
            StoreFault::Device(DeviceFault::Power(origin)) => one(origin as u64),
            StoreFault::Device(DeviceFault::Misaddressed(sector, origin)) => {
                two(sector as u64, origin as u64)
            }
            StoreFault::Device(DeviceFault::Spoiled(sector, origin)) => {
                two(sector as u64, origin as u64)
            }
            StoreFault::Device(DeviceFault::Unfit) => ArrayVec::new(),
            StoreFault::NoLog => ArrayVec::new(),
            StoreFault::Size(value) => one(value as u64),
            StoreFault::Uncovered(value) => one(value as u64),
            StoreFault::Range(value) => one(value as u64),
            StoreFault::Runs(value) => one(value as u64),
            StoreFault::Undeclared(value) => one(value as u64),
            StoreFault::SpoolFull(value) => one(value as u64),
            StoreFault::NoMark(value) => one(value),
            StoreFault::Busy(value) => one(value),
            StoreFault::Stranger(value) => one(value),
            StoreFault::Serials(value) => one(value),
            StoreFault::Full(value) => one(value),
        }
    }
}
