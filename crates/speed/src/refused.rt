// A call that was to pass, and was refused.
use book::LedgerFault;
use device::DeviceFault;
use std::error::Error;
use std::fmt;
use transactions::StoreFault;

#[derive(Clone, Copy, PartialEq, Eq, Debug)]
pub struct Refused(LedgerFault);

impl From<LedgerFault> for Refused {
    fn from(fault: LedgerFault) -> Self {
        Refused(fault)
    }
}

impl From<StoreFault> for Refused {
    fn from(fault: StoreFault) -> Self {
        Refused(LedgerFault::Store(fault))
    }
}

impl From<DeviceFault> for Refused {
    fn from(fault: DeviceFault) -> Self {
        Refused(LedgerFault::Store(StoreFault::Device(fault)))
    }
}

impl Error for Refused {}

impl fmt::Display for Refused {
    fn fmt<W: fmt::Write>(&self, f: &mut fmt::Formatter<W>) -> fmt::Result {
        let number = self.0.number();
        write!(f, "a call is refused, for reason {number}")
    }
}
