// The calls of a script on a ledger that works, one at a time.
ghost use Rattle.ledger.specs.Held.{held};
ghost use Rattle.ledger_law.specs.Deeds.{Does};
ghost use Rattle.std.specs.Prelude.{◌≢◌};

use crate::script::{Answer, Call};
use device::Device;
use ledger::Ledger;

// Makes one call on a ledger that works, other than close: that one gives the ledger up.
pub(crate) fn deed<D: Device>(ledger: &mut Ledger<D>, call: Call) -> Answer
    requires { call ≢ Call.Close }
    ensures { Does call (held ledger.old) result (held ledger.new) }
{
    match call {
        Call::Make | Call::Open | Call::Close => Answer::NotMade,
        Call::Issue {
            account,
            amount,
            flush,
        } => Answer::Changed(ledger.issue(account, amount, flush)),
        Call::Move {
            payer,
            payee,
            amount,
            flush,
        } => Answer::Changed(ledger.transfer(payer, payee, amount, flush)),
        Call::Visit { tag, guard, flush } => Answer::Changed(ledger.visit(&tag, guard, flush)),
        Call::Enrol {
            tag,
            account,
            flush,
        } => Answer::Changed(ledger.enrol(&tag, account, flush)),
        Call::Drop { tag, flush } => Answer::Changed(ledger.drop_tag(&tag, flush)),
        Call::Collect { account, flush } => Answer::Collected(ledger.collect(account, flush)),
        Call::Find { tag } => Answer::Found(ledger.find(&tag)),
        Call::Balance { account } => Answer::Balance(ledger.balance(account)),
        Call::Flush => Answer::Flushed(ledger.flush()),
        Call::Truncate => Answer::Truncated(ledger.truncate()),
    }
}
