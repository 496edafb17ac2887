// A run: a script worked over a device.
ghost use Rattle.law.specs.Events.{working, closed};
ghost use Rattle.law.specs.Law.{CrashSafe};
ghost use Rattle.law.specs.Deeds.{Starts};
ghost use Rattle.law.specs.Run.{moment_of, stage, Steps, Worked, Ended, Ran};
ghost use Rattle.transactions.specs.Held.{held};

use crate::deeds::deed;
use crate::script::{Answer, Call};
use device::Device;
use transactions::{Store, Token};

/// A run between two calls: a store works on its device, or the device lies alone.
pub enum Run<D: Device> {
    Working(Store<D>),
    Closed(D),
}

// Makes one call of a script on a device that lies alone.
fn begin_on<D: Device>(device: D, call: Call) -> (Run<D>, Answer)
    ensures { Starts call.entry (D.Device.disk device) result.1 (moment_of result.0) }
{
    match call {
        Call::Format => {
            let (store, answer) = Store::format(device);
            (Run::Working(store), Answer::Formatted(answer))
        }
        Call::Open => {
            let (store, answer) = Store::open(device);
            (Run::Working(store), Answer::Opened(answer))
        }
        _ => (Run::Closed(device), Answer::NotMade),
    }
}

// Makes one call of a script on a store that works.
fn go_on<D: Device>(
    mut store: Store<D>,
    call: Call,
    places: &mut [Option<Token>],
    buffer: &mut [u8],
) -> (Run<D>, Answer)
    ensures { Steps call.entry (stage (working (held store)) places.old buffer.old) result.1 (stage (moment_of result.0) places.new buffer.new) }
{
    match call {
        Call::Close => (Run::Closed(store.close()), Answer::Closed),
        other => {
            let answer = deed(&mut store, other, places, buffer);
            (Run::Working(store), answer)
        }
    }
}

// Makes one call of a script.
fn step<D: Device>(
    run: Run<D>,
    call: Call,
    places: &mut [Option<Token>],
    buffer: &mut [u8],
) -> (Run<D>, Answer)
    ensures { Steps call.entry (stage (moment_of run) places.old buffer.old) result.1 (stage (moment_of result.0) places.new buffer.new) }
{
    match run {
        Run::Working(store) => go_on(store, call, places, buffer),
        Run::Closed(device) => begin_on(device, call),
    }
}

// Makes the calls of a script, as far as there is room for answers, and says how many that were.
fn work_through<D: Device>(
    device: D,
    calls: &[Call],
    places: &mut [Option<Token>],
    buffer: &mut [u8],
    answers: &mut [Answer],
) -> (Run<D>, usize)
    ensures { Worked (stage (closed (D.Device.disk device)) places.old buffer.old) calls.now answers.old result.1 answers.new (stage (moment_of result.0) places.new buffer.new) }
{
    let mut run = Run::Closed(device);
    let count = calls.len().min(answers.len());
    // After a `zip` over what is written nothing is known of it, so the answers are written by their place.
    for (i, call) in calls[..count].iter().enumerate() {
        let (next, answer) = step(run, *call, places, buffer);
        run = next;
        answers[i] = answer;
    }
    (run, count)
}

// Ends a run: a store that still works is closed.
fn end<D: Device>(run: Run<D>) -> D
    ensures { Ended (moment_of run) (D.Device.disk result) }
{
    match run {
        Run::Working(store) => store.close(),
        Run::Closed(device) => device,
    }
}

/// Works a script over a device, as far as there is room for answers, and answers how many calls that were. The script
/// lends places for tokens, with whatever tokens in them, and finds in them afterwards what it did not spend; and a
/// buffer, into whose parts it reads. The device is given back, closed. Whatever happens in a run, this one or any other,
/// the crash-safety law of stores holds of it.
pub fn work<D: Device>(
    device: D,
    calls: &[Call],
    tokens: &mut [Option<Token>],
    buffer: &mut [u8],
    answers: &mut [Answer],
) -> (D, usize)
    ensures run { Ran (D.Device.disk device) calls.now tokens.old buffer.old answers.old (D.Device.disk result.0) result.1 tokens.new buffer.new answers.new }
    ensures law { CrashSafe }
{
    let (run, count) = work_through(device, calls, tokens, buffer, answers);
    (end(run), count)
}
