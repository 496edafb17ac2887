// A store over a device, and its calls.
ghost use Rattle.std.specs.Prelude.{◌≡◌};
ghost use Rattle.transactions.specs.State.{LiesOn, Rests};
ghost use Rattle.transactions.specs.Pages.{TableStands};

use crate::calls::{commit_store, flush_store};
use crate::fault::StoreFault;
use crate::making::{format_into, off, open_into};
use crate::state::State;
use crate::token::Token;
use crate::truncation::truncate_store;
use device::Device;
use image::MEMORY;

/// A store owns its device until it is closed; a call that doesn't reach it says that it leaves it as it is. Its log,
/// with the homes after it, lies on the device while the store is on.
#[derive(Drop)]
pub struct Store<D: Device> {
    device: D,
    state: State,
    pub ghost lies: { LiesOn state (D.Device.disk device) },
    // While it is on, its page table says what its live records and those that wait say.
    pub ghost table: { TableStands state (D.Device.disk device) },
    // While it is on and no transaction is open, nothing is declared, and its memory is as at begin.
    pub ghost rests: { Rests state },
}

impl<D: Device> Store<D> {
    ghost use Rattle.transactions.specs.Held.{held, Formatted, Opened, Begins, SetsRange, WritesRange, ReadsRange, Lends, Aborts, Flushes, Commits, Truncates};

    /// Makes a new store on the device: zeros in its memory, and a log with one mark. Where that is
    /// refused, or power fails, the store is off, and only close works.
    pub fn format(device: D) -> (Store<D>, Result<(), StoreFault>)
        ensures { Formatted (D.Device.disk device) result.1 (held result.0) }
    {
        let mut device = device;
        let mut state = off();
        let answer = format_into(&mut device, &mut state);
        (Store { device, state }, answer)
    }

    /// Opens the store that the device holds, and answers the number of transactions found and how many
    /// strays were cleared. Where that is refused, or power fails, the store is off, and only close works.
    pub fn open(device: D) -> (Store<D>, Result<(u64, usize), StoreFault>)
        ensures { Opened (D.Device.disk device) result.1 (held result.0) }
    {
        let mut device = device;
        let mut state = off();
        let answer = open_into(&mut device, &mut state);
        (Store { device, state }, answer)
    }

    /// Gives the device back as it is. An open transaction and what waits are lost.
    pub fn close(self) -> D
        ensures { result ≡ self.device }
    {
        let Store { device, state: _ } = self;
        device
    }

    /// Begins a transaction, and gives its token.
    pub fn begin(&mut self) -> Result<Token, StoreFault>
        ensures begins { Begins (held self.old) result (held self.new) }
        ensures device { self.new.device ≡ self.old.device }
    {
        self.state.may_begin()?;
        self.state.busy = true;
        Ok(Token::new(self.state.log.ordinal + 1))
    }

    /// Declares so many bytes from `start` on.
    pub fn set_range(&mut self, token: &Token, start: usize, size: usize) -> Result<(), StoreFault>
        ensures declares { SetsRange token.now.number start size (held self.old) result (held self.new) }
        ensures device { self.new.device ≡ self.old.device }
    {
        self.state.shown(token.number())?;
        self.state.image.declare(start, size)?;
        Ok(())
    }

    /// Puts bytes into the memory from `start` on, where all of that is declared.
    pub fn write(&mut self, token: &Token, start: usize, bytes: &[u8]) -> Result<(), StoreFault>
        ensures writes { WritesRange token.now.number start bytes.now (held self.old) result (held self.new) }
        ensures device { self.new.device ≡ self.old.device }
    {
        self.state.shown(token.number())?;
        self.state.image.write(start, bytes)?;
        Ok(())
    }

    /// Fills the buffer from the memory, bytes that are not committed too.
    pub fn read(&self, start: usize, buffer: &mut [u8]) -> Result<(), StoreFault>
        ensures { ReadsRange start (held self.now) buffer.old result buffer.new }
    {
        self.state.awake()?;
        self.state.image.read(start, buffer)?;
        Ok(())
    }

    /// Lends the memory to be looked at, bytes that are not committed too.
    pub fn memory(&self) -> Result<&[u8; MEMORY], StoreFault>
        ensures { Lends (held self.now) result }
    {
        self.state.awake()?;
        Ok(&self.state.image.memory)
    }

    /// Ends the transaction: its records are written and settled, or wait in the spool. Answers its ordinal
    /// and how many records it became. The token is spent on every way out.
    pub fn commit(&mut self, token: Token, flush: bool) -> Result<(u64, usize), StoreFault>
        ensures { Commits token.number flush (held self.old) result (held self.new) }
    {
        commit_store(&mut self.device, &mut self.state, token.spend(), flush)
    }

    /// Ends the transaction and puts back each byte that it declared. The token is spent on every way out.
    pub fn abort(&mut self, token: Token) -> Result<(), StoreFault>
        ensures aborts { Aborts token.number (held self.old) result (held self.new) }
        ensures device { self.new.device ≡ self.old.device }
    {
        self.state.shown(token.spend())?;
        self.state.undo();
        Ok(())
    }

    /// Writes and settles what waits, and answers how many records that were.
    pub fn flush(&mut self) -> Result<usize, StoreFault>
        ensures { Flushes (held self.old) result (held self.new) }
    {
        flush_store(&mut self.device, &mut self.state)
    }

    /// Writes dirty pages home and begins the log anew at a mark. Answers how many pages were dirty.
    pub fn truncate(&mut self) -> Result<usize, StoreFault>
        ensures { Truncates (held self.old) result (held self.new) }
    {
        truncate_store(&mut self.device, &mut self.state)
    }
}
