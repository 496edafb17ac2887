// Why a ledger says no. It holds the store's fault whole, and by it the device's.
ghost use Rattle.book.specs.Fault.{number};
ghost use Rattle.book.specs.declared.fault.LedgerFault.TheVariants.{Store};
ghost use Rattle.std.specs.Prelude.{◌≡◌};

use transactions::StoreFault;

#[derive(Clone, Copy, PartialEq, Eq, Debug)]
pub enum LedgerFault {
    // The store said no: power failed, it is off, or it has too little room.
    Store(StoreFault),
    // What the store holds is no ledger.
    NotLedger,
    // There is no account of this number.
    Account(u16),
    // The tag is in no cell; it would be in this bucket.
    Unknown(usize),
    // The tag is there already, of this account.
    Present(u16),
    // This account is to pay itself.
    Same(u16),
    // Nothing is to be paid or issued, by or to this account.
    Nothing(u16),
    // The payer has no more than this.
    Short(u64),
    // So much is issued already that the total would pass its bound.
    Total(u64),
    // No cell is free, for something of this account.
    NoCell(u16),
    // This account has no entry.
    NoEntry(u16),
}

impl From<StoreFault> for LedgerFault {
    ghost from_gives = { λ f r. r ≡ Store f };

    fn from(fault: StoreFault) -> Self {
        LedgerFault::Store(fault)
    }
}

impl LedgerFault {
    /// The number of this refusal in the table of refusals: a store's keeps its own.
    pub fn number(&self) -> u8
        ensures { result ≡ number self.now }
    {
        match self {
            LedgerFault::Store(fault) => fault.number(),
            LedgerFault::NotLedger => 17,
            LedgerFault::Account(_) => 18,
            LedgerFault::Unknown(_) => 19,
            LedgerFault::Present(_) => 20,
            LedgerFault::Same(_) => 21,
            LedgerFault::Nothing(_) => 22,
            LedgerFault::Short(_) => 23,
            LedgerFault::Total(_) => 24,
            LedgerFault::NoCell(_) => 25,
            LedgerFault::NoEntry(_) => 26,
        }
    }
}
