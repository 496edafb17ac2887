// A run: a script of a ledger's calls worked over a device.
ghost use Rattle.ledger.specs.Held.{held};
ghost use Rattle.ledger_law.specs.Deeds.{Starts};
ghost use Rattle.ledger_law.specs.Events.{working, closed};
ghost use Rattle.ledger_law.specs.Run.{moment_of, Steps, Worked, Ended, Ran};

use crate::deeds::deed;
use crate::script::{Answer, Call};
use device::Device;
use ledger::Ledger;

/// A run between two calls: a ledger works on its device, or the device lies alone.
pub enum Run<D: Device> {
    Working(Ledger<D>),
    Closed(D),
}

// Makes one call of a script on a device that lies alone.
fn begin_on<D: Device>(device: D, call: Call) -> (Run<D>, Answer)
    ensures { Starts call (D.Device.disk device) result.1 (moment_of result.0) }
{
    match call {
        Call::Make => {
            let (ledger, answer) = Ledger::make(device);
            (Run::Working(ledger), Answer::Made(answer))
        }
        Call::Open => {
            let (ledger, answer) = Ledger::open(device);
            (Run::Working(ledger), Answer::Opened(answer))
        }
        _ => (Run::Closed(device), Answer::NotMade),
    }
}

// Makes one call of a script on a ledger that works.
fn go_on<D: Device>(mut ledger: Ledger<D>, call: Call) -> (Run<D>, Answer)
    ensures { Steps call (working (held ledger)) result.1 (moment_of result.0) }
{
    match call {
        Call::Close => (Run::Closed(ledger.close()), Answer::Closed),
        other => {
            let answer = deed(&mut ledger, other);
            (Run::Working(ledger), answer)
        }
    }
}

// Makes one call of a script.
fn step<D: Device>(run: Run<D>, call: Call) -> (Run<D>, Answer)
    ensures { Steps call (moment_of run) result.1 (moment_of result.0) }
{
    match run {
        Run::Working(ledger) => go_on(ledger, call),
        Run::Closed(device) => begin_on(device, call),
    }
}

// Makes the calls of a script, as far as there is room for answers, and says how many that were.
fn work_through<D: Device>(device: D, calls: &[Call], answers: &mut [Answer]) -> (Run<D>, usize)
    ensures { Worked (closed (D.Device.disk device)) calls.now answers.old result.1 answers.new (moment_of result.0) }
{
    let mut run = Run::Closed(device);
    let count = calls.len().min(answers.len());
    // After a `zip` over what is written nothing is known of it, so the answers are written by their place.
    for (i, call) in calls[..count].iter().enumerate() {
        let (next, answer) = step(run, *call);
        run = next;
        answers[i] = answer;
    }
    (run, count)
}

// Ends a run: a ledger that still works is closed.
fn end<D: Device>(run: Run<D>) -> D
    ensures { Ended (moment_of run) (D.Device.disk result) }
{
    match run {
        Run::Working(ledger) => ledger.close(),
        Run::Closed(device) => device,
    }
}

// Works a script over a device, as far as there is room for answers, and answers how many calls that were. The device
// is given back, closed.
pub(crate) fn work_ledger<D: Device>(
    device: D,
    calls: &[Call],
    answers: &mut [Answer],
) -> (D, usize)
    ensures { Ran (D.Device.disk device) calls.now answers.old (D.Device.disk result.0) result.1 answers.new }
{
    let (run, count) = work_through(device, calls, answers);
    (end(run), count)
}
