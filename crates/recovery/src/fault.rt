// Why a log cannot be made or opened. It holds the device's fault whole.
ghost use Rattle.recovery.specs.Fault.{number, from_log};
ghost use Rattle.recovery.specs.declared.fault.RecoveryFault.TheVariants.{Device};
ghost use Rattle.std.specs.Prelude.{◌≡◌};

use device::DeviceFault;
use journal::LogFault;

#[derive(Clone, Copy, PartialEq, Eq, Debug)]
pub enum RecoveryFault {
    // The device said no: power failed.
    Device(DeviceFault),
    // The device has too few or too many sectors for a store.
    Size(usize),
    // No sector of the log holds a record.
    NoLog,
    // The record with this serial, which the log begins with, is no mark.
    NoMark(u64),
    // The home of this page is spoiled, and no record covers it.
    Uncovered(usize),
}

impl From<DeviceFault> for RecoveryFault {
    ghost from_gives = { λ f r. r ≡ Device f };

    fn from(fault: DeviceFault) -> Self {
        RecoveryFault::Device(fault)
    }
}

// Case by case: nested, a refusal would have another shape for each crate that finds it.
impl From<LogFault> for RecoveryFault {
    ghost from_gives = { λ f r. r ≡ from_log f };

    fn from(fault: LogFault) -> Self {
        match fault {
            LogFault::NoLog => RecoveryFault::NoLog,
            LogFault::NoMark(low) => RecoveryFault::NoMark(low),
        }
    }
}

impl RecoveryFault {
    // The number of this refusal in the table of refusals, which is promised beside the enum and made of it alone.
    pub fn number(&self) -> u8
        ensures { result ≡ number self.now }
    {
        match self {
            RecoveryFault::Device(fault) => fault.number(),
            RecoveryFault::Size(_) => 5,
            RecoveryFault::NoLog => 6,
            RecoveryFault::NoMark(_) => 7,
            RecoveryFault::Uncovered(_) => 8,
        }
    }
}
