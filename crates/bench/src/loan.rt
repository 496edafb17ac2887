// Bytes and flags that are lent to a device for a while, and what the caller has then.
ghost use Rattle.bench.specs.Card.{Card, card};
ghost use Rattle.bench.specs.Loan.{SameLoan, Lent};

use crate::plan::Supply;
use crate::{Bench, fit};
use device::DeviceFault;

/// What is done on a bench device that is lent for it.
pub trait Work {
    type Answer;

    // What it makes of the device, by what it answers.
    ghost does: { Self → Card → Self.Answer → Card → Type 0 };

    fn on(self, device: &mut Bench<'_, '_, '_>) -> Self::Answer
        ensures does { does self (card device.old) result (card device.new) }
        ensures loan { SameLoan device.old device.new };
}

/// Makes a device over these as `Bench::new` does, lends it to the work, and answers what the work answers. The
/// caller's bytes and flags are then what the device was left with; where they make no device, all stays as it was.
pub fn lend<W: Work + Drop>(
    bytes: &mut [u8],
    flags: &mut [u8],
    plan: &[u8],
    origin: u8,
    work: W,
) -> Result<W::Answer, DeviceFault>
    ensures { Lent (W.does work) bytes.old flags.old plan.now origin result bytes.new flags.new }
{
    if !fit(bytes, flags, plan) {
        return Err(DeviceFault::Unfit);
    }
    // Not made by a call: of a device that a call hands out it is not known that it is over these bytes.
    let mut device = Bench {
        bytes,
        flags,
        supply: Supply {
            codes: plan,
            on: true,
        },
        origin,
    };
    Ok(work.on(&mut device))
}
