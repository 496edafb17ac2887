// The script played on a pile, until power fails or it ends.
use crate::script::{Change, SCRIPT, Step};
use crate::trouble::Trouble;
use book::LedgerFault;
use device::{Device, DeviceFault};
use ledger::Ledger;
use transactions::StoreFault;

// How far the script came. The make is the first transaction.
#[derive(Clone, Copy)]
pub struct Played {
    // So many transactions are kept for certain.
    pub kept: u64,
    // So many were entered.
    pub entered: u64,
    // Power failed.
    pub cut: bool,
}

// Makes a change, and answers its ordinal.
fn change<D: Device>(
    ledger: &mut Ledger<D>,
    change: Change,
    flush: bool,
) -> Result<u64, LedgerFault> {
    match change {
        Change::Issue(account, amount) => ledger.issue(account, amount, flush),
        Change::Transfer(payer, payee, amount) => ledger.transfer(payer, payee, amount, flush),
        Change::Visit(tag, guard) => ledger.visit(&tag, guard, flush),
        Change::Enrol(tag, account) => ledger.enrol(&tag, account, flush),
        Change::DropTag(tag) => ledger.drop_tag(&tag, flush),
        Change::Collect(account) => ledger.collect(account, flush).map(|(ordinal, _)| ordinal),
    }
}

impl Played {
    // Makes the next change, which has the next ordinal.
    fn enter<D: Device>(
        &mut self,
        ledger: &mut Ledger<D>,
        what: Change,
        flush: bool,
    ) -> Result<(), Trouble> {
        self.entered = self.entered.saturating_add(1);
        let ordinal = change(ledger, what, flush)?;
        if ordinal != self.entered {
            return Err(Trouble::Ordinal(ordinal));
        }
        Ok(())
    }

    // Plays a step. All that was entered is kept after it, unless it is a change that waits.
    fn play_step<D: Device>(&mut self, ledger: &mut Ledger<D>, step: Step) -> Result<(), Trouble> {
        match step {
            Step::Keep(what) => self.enter(ledger, what, true)?,
            Step::Spool(what) => return self.enter(ledger, what, false),
            Step::Flush => {
                ledger.flush()?;
            }
            Step::Truncate => {
                ledger.truncate()?;
            }
        }
        self.kept = self.entered;
        Ok(())
    }
}

// Makes a new ledger and then the steps of the script, up to the first that is refused.
fn work<D: Device + Drop>(device: D, played: &mut Played) -> Result<(), Trouble> {
    let (mut ledger, made) = Ledger::make(device);
    made?;
    played.kept = played.entered;
    for step in &SCRIPT {
        played.play_step(&mut ledger, *step)?;
    }
    Ok(())
}

// Whether power failed in a call.
pub fn is_cut(fault: LedgerFault) -> bool {
    matches!(
        fault,
        LedgerFault::Store(StoreFault::Device(DeviceFault::Power(_)))
    )
}

// Plays the script on a device. Nothing but power may stop it.
pub fn play<D: Device + Drop>(device: D) -> Result<Played, Trouble> {
    let mut played = Played {
        kept: 0,
        entered: 1,
        cut: false,
    };
    match work(device, &mut played) {
        Ok(()) => {}
        Err(Trouble::Refused(fault)) if is_cut(fault) => played.cut = true,
        Err(trouble) => return Err(trouble),
    }
    Ok(played)
}
