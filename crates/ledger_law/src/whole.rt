// One call that works a script of a store's calls, or of a ledger's, over any device.
ghost use Rattle.law.specs.Law.{CrashSafe};
ghost use Rattle.ledger_law.specs.Law.{RunsBelow, Conserving};
ghost use Rattle.ledger_law.specs.Whole.{lent, Works};

use crate::run::work_ledger;
use crate::script::{Answer, Call};
use device::Device;
use transactions::Token;

/// A script of the store's calls, or of the ledger's.
#[derive(Clone, Copy)]
pub enum Script<'a> {
    Store(&'a [law::Call<'a>]),
    Ledger(&'a [Call]),
}

/// Works a script over a device, as far as there is room for its answers, and answers how many calls that were. The
/// device is given back, closed. What a script of the other kind would have used stays as it is: a store's script lends
/// places for tokens and a buffer. Whatever happens in a run, this one or any other, the crash-safety law of stores and
/// the conservation law of ledgers hold of it, and what a ledger does below is a run of a store.
pub fn work<D: Device>(
    device: D,
    script: Script,
    tokens: &mut [Option<Token>],
    buffer: &mut [u8],
    store_answers: &mut [law::Answer],
    ledger_answers: &mut [Answer],
) -> (D, usize)
    ensures run { Works (D.Device.disk device) script.entry (lent tokens.old buffer.old store_answers.old ledger_answers.old) (D.Device.disk result.0) result.1 (lent tokens.new buffer.new store_answers.new ledger_answers.new) }
    ensures crash_safety { CrashSafe }
    ensures conservation { Conserving }
    ensures below { RunsBelow }
{
    match script {
        Script::Store(calls) => law::work(device, calls, tokens, buffer, store_answers),
        Script::Ledger(calls) => work_ledger(device, calls, ledger_answers),
    }
}
