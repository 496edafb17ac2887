// A ledger over a device, and its calls.
ghost use Rattle.std.specs.Prelude.{◌≡◌};
ghost use Rattle.ledger.specs.Sound.{Sound};

use crate::changing::{collect, drop_tag, enrol, issue, transfer, visit};
use crate::flushing::{flush, truncate};
use crate::looking::{balance, find};
use crate::making::{make, open};
use book::{Entry, LedgerFault};
use device::Device;
use transactions::Store;

/// A ledger is worked by its own calls alone. It is off while its store is, and where what that holds is no ledger.
#[derive(Drop)]
pub struct Ledger<D: Device> {
    store: Store<D>,
    // The memory was found a ledger.
    fit: bool,
    pub ghost sound: { Sound fit store.state },
}

impl<D: Device> Ledger<D> {
    ghost use Rattle.ledger.specs.Held.{held};
    ghost use Rattle.ledger.specs.Calls.{Makes, Opens, Issues, Moves, Visits, Enrols, Drops, Collects, Finds, Balances, Flushes, Truncates};

    /// Makes a new ledger on the device: nothing is issued, and every cell is free. Where the store refuses, or power
    /// fails, the ledger is off, and only close works.
    pub fn make(device: D) -> (Ledger<D>, Result<(), LedgerFault>)
        ensures { Makes (D.Device.disk device) result.1 (held result.0) }
    {
        let (store, answer) = make(device);
        let fit = answer.is_ok();
        (Ledger { store, fit }, answer)
    }

    /// Opens the ledger that the device holds, and answers the number of transactions found and how many strays were
    /// cleared. Where that is refused, or power fails, the ledger is off, and only close works.
    pub fn open(device: D) -> (Ledger<D>, Result<(u64, usize), LedgerFault>)
        ensures { Opens (D.Device.disk device) result.1 (held result.0) }
    {
        let (store, answer) = open(device);
        let fit = answer.is_ok();
        (Ledger { store, fit }, answer)
    }

    /// Gives the device back as it is. What waits is lost.
    pub fn close(self) -> D
        ensures { result ≡ self.store.device }
    {
        let Ledger { store, fit: _ } = self;
        store.close()
    }

    /// Adds to an account's balance and to the total.
    pub fn issue(&mut self, account: u16, amount: u64, flush: bool) -> Result<u64, LedgerFault>
        ensures { Issues account amount flush (held self.old) result (held self.new) }
    {
        issue(&mut self.store, self.fit, account, amount, flush)
    }

    /// The payer pays the payee, and gets an entry that says so, before its others.
    pub fn transfer(
        &mut self,
        payer: u16,
        payee: u16,
        amount: u64,
        flush: bool,
    ) -> Result<u64, LedgerFault>
        ensures { Moves payer payee amount flush (held self.old) result (held self.new) }
    {
        transfer(&mut self.store, self.fit, payer, payee, amount, flush)
    }

    /// Pays 1 from the account of a tag to a guard's.
    pub fn visit(&mut self, id: &[u8; 8], guard: u16, flush: bool) -> Result<u64, LedgerFault>
        ensures { Visits id.now guard flush (held self.old) result (held self.new) }
    {
        visit(&mut self.store, self.fit, id, guard, flush)
    }

    /// Puts a tag of this account into its bucket.
    pub fn enrol(&mut self, id: &[u8; 8], account: u16, flush: bool) -> Result<u64, LedgerFault>
        ensures { Enrols id.now account flush (held self.old) result (held self.new) }
    {
        enrol(&mut self.store, self.fit, id, account, flush)
    }

    /// Takes a tag out of its bucket. Its name keeps clear of the trait that lets a value go.
    pub fn drop_tag(&mut self, id: &[u8; 8], flush: bool) -> Result<u64, LedgerFault>
        ensures { Drops id.now flush (held self.old) result (held self.new) }
    {
        drop_tag(&mut self.store, self.fit, id, flush)
    }

    /// Takes an account's front entry off, and answers it too.
    pub fn collect(&mut self, account: u16, flush: bool) -> Result<(u64, Entry), LedgerFault>
        ensures { Collects account flush (held self.old) result (held self.new) }
    {
        collect(&mut self.store, self.fit, account, flush)
    }

    /// The account of a tag, if it is there.
    pub fn find(&self, id: &[u8; 8]) -> Result<Option<u16>, LedgerFault>
        ensures { Finds id.now (held self.now) result }
    {
        find(&self.store, self.fit, id)
    }

    /// The balance of an account.
    pub fn balance(&self, account: u16) -> Result<u64, LedgerFault>
        ensures { Balances account (held self.now) result }
    {
        balance(&self.store, self.fit, account)
    }

    /// Writes and settles what waits, and answers how many records that were.
    pub fn flush(&mut self) -> Result<usize, LedgerFault>
        ensures { Flushes (held self.old) result (held self.new) }
    {
        flush(&mut self.store, self.fit)
    }

    /// Writes what changed in the memory to its homes and begins the log anew. Answers how many pages that were.
    pub fn truncate(&mut self) -> Result<usize, LedgerFault>
        ensures { Truncates (held self.old) result (held self.new) }
    {
        truncate(&mut self.store, self.fit)
    }
}
