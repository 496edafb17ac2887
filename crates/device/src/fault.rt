// Why a device says no.
ghost use Rattle.device.specs.Fault.{number};
ghost use Rattle.std.specs.Prelude.{◌≡◌};

#[derive(Clone, Copy, PartialEq, Eq, Debug)]
pub enum DeviceFault {
    // Power failed in the call, in the end with this origin; 0 where the device was off already.
    Power(u8),
    // There is no such sector, or the buffer has not the length of one.
    Misaddressed(usize, u8),
    // The bytes, flags and plan given for a bench device do not fit together.
    Unfit,
    // The sector that was read is spoiled.
    Spoiled(usize, u8),
}

impl DeviceFault {
    // The number of this refusal in the table of refusals, which is promised beside the enum and made of it alone.
    pub fn number(&self) -> u8
        ensures { result ≡ number self.now }
    {
        match self {
            DeviceFault::Power(_) => 1,
            DeviceFault::Misaddressed(_, _) => 2,
            DeviceFault::Unfit => 3,
            DeviceFault::Spoiled(_, _) => 4,
        }
    }
}
