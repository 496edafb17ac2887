// A bench device that is lent for a piece of work, and what its caller has then.
ghost use Rattle.bench.specs.Calls.{Stored};
ghost use Rattle.std.specs.Prelude.{◌≡◌, ◌<◌, ◌+◌, ◌*◌, ◌++◌, IfErr, Ok, length, take, drop, slice_set};

use bench::{Bench, Work, lend};
use device::{Device, DeviceFault};

// The writing of one sector.
#[derive(Drop)]
struct Put<'a> {
    sector: usize,
    bytes: &'a [u8],
}

impl Work for Put<'_> {
    type Answer = Result<(), DeviceFault>;

    ghost does = { λ put c answer e. Stored c put.sector put.bytes.now answer e };

    fn on(self, device: &mut Bench<'_, '_, '_>) -> Result<(), DeviceFault> {
        device.write(self.sector, self.bytes)
    }
}

// Writes one sector of a device over these whose power stays on. Its clauses speak of the caller's bytes and flags alone.
pub(crate) fn write_once(
    bytes: &mut [u8],
    flags: &mut [u8],
    sector: usize,
    new: &[u8],
) -> Result<Result<(), DeviceFault>, DeviceFault>
    ensures written { result ≡ Ok (Ok tt) → (bytes.new ≡ take (128 * sector) bytes.old ++ (new.now ++ drop (128 * sector + 128) bytes.old)) × (flags.new ≡ slice_set flags.old sector 0) }
    ensures unfit { IfErr result (λ _. (bytes.new ≡ bytes.old) × (flags.new ≡ flags.old)) }
{
    lend(bytes, flags, &[], 1, Put { sector, bytes: new })
}
