// What is open on a pile, a store or a ledger: calls of it, from the input, until it is closed or let go.
use crate::answer::{Answer, Refusal};
use crate::command::{Command, How, LedgerCommand, StoreCommand};
use crate::desk::Desk;
use crate::held::Held;
use device::Device;
use ledger::Ledger;
use transactions::Store;

// A store or a ledger that is open in the console's sense, be it off.
trait Opened<D: Device> {
    // Makes a call of it, if the command is one.
    fn call(&mut self, held: &mut Held, command: Command) -> Result<Answer<'static>, Refusal>;

    // Spends the token that is held, if it is of its own giving.
    fn lay_down(&mut self, held: &mut Held);

    // Closes it, which any token that is held outlasts.
    fn leave(self, held: &mut Held) -> D;
}

impl<D: Device> Opened<D> for Store<D> {
    fn call(&mut self, held: &mut Held, command: Command) -> Result<Answer<'static>, Refusal> {
        match command {
            Command::Store(command) => call_store(self, held, command),
            _other => Err(Refusal::NotNow),
        }
    }

    fn lay_down(&mut self, held: &mut Held) {
        held.lay_down(self);
    }

    fn leave(self, held: &mut Held) -> D {
        held.outlast();
        self.close()
    }
}

// A ledger gives no tokens: one that is held is stale already.
impl<D: Device> Opened<D> for Ledger<D> {
    fn call(&mut self, _held: &mut Held, command: Command) -> Result<Answer<'static>, Refusal> {
        match command {
            Command::Ledger(command) => call_ledger(self, command),
            _other => Err(Refusal::NotNow),
        }
    }

    fn lay_down(&mut self, _held: &mut Held) {}

    fn leave(self, _held: &mut Held) -> D {
        self.close()
    }
}

// Makes one call of the store, which is shown or given the token that is held.
fn call_store<D: Device>(
    store: &mut Store<D>,
    held: &mut Held,
    command: StoreCommand,
) -> Result<Answer<'static>, Refusal> {
    match command {
        StoreCommand::Begin => return Ok(Answer::Begun(held.begin(store)?)),
        StoreCommand::SetRange(start, size) => store.set_range(held.token()?, start, size)?,
        StoreCommand::WriteRange(start, bytes) => {
            store.write(held.token()?, start, bytes.as_slice())?
        }
        StoreCommand::ReadRange(start, mut buffer) => {
            store.read(start, buffer.as_mut_slice())?;
            return Ok(Answer::Bytes(buffer));
        }
        StoreCommand::Commit(how) => {
            let (ordinal, records) = store.commit(held.give()?, how.is_flush())?;
            return Ok(Answer::Committed(ordinal, records));
        }
        StoreCommand::Abort => store.abort(held.give()?)?,
        StoreCommand::Flush => return Ok(Answer::Count(store.flush()?)),
        StoreCommand::Truncate => return Ok(Answer::Count(store.truncate()?)),
    }
    Ok(Answer::Done)
}

// Makes one call of the ledger.
fn call_ledger<D: Device>(
    ledger: &mut Ledger<D>,
    command: LedgerCommand,
) -> Result<Answer<'static>, Refusal> {
    Ok(match command {
        LedgerCommand::Issue(account, amount, how) => {
            Answer::Changed(ledger.issue(account, amount, how.is_flush())?)
        }
        LedgerCommand::Move(payer, payee, amount, how) => {
            Answer::Changed(ledger.transfer(payer, payee, amount, how.is_flush())?)
        }
        LedgerCommand::Visit(tag, guard, how) => {
            Answer::Changed(ledger.visit(&tag, guard, how.is_flush())?)
        }
        LedgerCommand::Enrol(tag, account, how) => {
            Answer::Changed(ledger.enrol(&tag, account, how.is_flush())?)
        }
        LedgerCommand::Drop(tag, how) => Answer::Changed(ledger.drop_tag(&tag, how.is_flush())?),
        LedgerCommand::Collect(account, how) => {
            let (ordinal, entry) = ledger.collect(account, how.is_flush())?;
            Answer::Collected(ordinal, entry)
        }
        LedgerCommand::Find(tag) => Answer::Account(ledger.find(&tag)?),
        LedgerCommand::Balance(account) => Answer::Balance(ledger.balance(account)?),
        LedgerCommand::Flush => Answer::Count(ledger.flush()?),
        LedgerCommand::Truncate => Answer::Count(ledger.truncate()?),
    })
}

// Works through the input until what is open is closed, and gives its device; or none where the pile is let go or
// the input ends.
fn hold<D: Device + Drop, O: Opened<D> + Drop>(
    desk: &mut Desk,
    mut opened: O,
) -> anyhow::Result<Option<D>> {
    // A count ends the loop: by a `while let`, each function down to here would promise what is left to read.
    for _ in 0..u64::MAX {
        let Some(command) = desk.next_command()? else {
            return Ok(None);
        };
        match command {
            Command::Close => {
                desk.say(&Answer::Done)?;
                return Ok(Some(opened.leave(&mut desk.held)));
            }
            Command::End => {
                opened.lay_down(&mut desk.held);
                desk.say(&Answer::Done)?;
                return Ok(None);
            }
            command => {
                let outcome = opened.call(&mut desk.held, command);
                desk.tell(outcome)?;
            }
        }
    }
    Ok(None)
}

// Formats the pile, and holds the store on it.
pub fn format<D: Device + Drop>(desk: &mut Desk, device: D) -> anyhow::Result<Option<D>> {
    let (store, answer) = Store::format(device);
    desk.tell(answer.map(|()| Answer::Done).map_err(Refusal::from))?;
    hold(desk, store)
}

// Opens the store on the pile, and holds it.
pub fn open<D: Device + Drop>(desk: &mut Desk, device: D) -> anyhow::Result<Option<D>> {
    let (store, answer) = Store::open(device);
    let answer = answer.map(|(found, strays)| Answer::Found(found, strays));
    desk.tell(answer.map_err(Refusal::from))?;
    hold(desk, store)
}

// Makes a ledger on the pile, and holds it.
pub fn make<D: Device + Drop>(desk: &mut Desk, device: D) -> anyhow::Result<Option<D>> {
    let (ledger, answer) = Ledger::make(device);
    desk.tell(answer.map(|()| Answer::Done).map_err(Refusal::Ledger))?;
    hold(desk, ledger)
}

// Opens the ledger on the pile, and holds it.
pub fn open_ledger<D: Device + Drop>(desk: &mut Desk, device: D) -> anyhow::Result<Option<D>> {
    let (ledger, answer) = Ledger::open(device);
    let answer = answer.map(|(found, strays)| Answer::Found(found, strays));
    desk.tell(answer.map_err(Refusal::Ledger))?;
    hold(desk, ledger)
}
