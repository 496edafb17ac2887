// Where the log of a store stands.
ghost use Rattle.std.specs.Prelude.{◌≤◌};

use record::Head;

/// A number of sectors with its bounds: what writes a record or notes one is public, and takes any number.
#[derive(Clone, Copy)]
pub struct Log {
    // How many sectors the log has.
    pub places: usize,
    // The oldest serial that is needed.
    pub low: u64,
    // The last serial that was written.
    pub last: u64,
    // The number of the last transaction.
    pub ordinal: u64,
    ghost least: { 160 ≤ places },
    ghost most: { places ≤ 1024 },
}

impl Log {
    ghost use Rattle.std.specs.Prelude.{◌≡◌};

    // The head of a record with this serial, of the transaction with this number.
    pub(crate) fn head(&self, serial: u64, ordinal: u64) -> Head
        ensures { result ≡ record { serial = serial; low = self.now.low; ordinal = ordinal } }
    {
        Head {
            serial,
            low: self.low,
            ordinal,
        }
    }
}
