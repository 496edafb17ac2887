// A pile in use: calls of its device, and stores and ledgers on it, from the input until it is let go.
use crate::answer::{Answer, Refusal};
use crate::command::{Command, DeviceCommand, Start};
use crate::desk::Desk;
use crate::opened::{format, make, open, open_ledger};
use device::{Device, DeviceFault};

// Makes one call of the device.
fn call<D: Device>(device: &mut D, command: DeviceCommand) -> Result<Answer<'static>, Refusal> {
    match command {
        DeviceCommand::Count => return Ok(Answer::Count(device.sectors())),
        DeviceCommand::Read(sector, mut buffer) => {
            device.read(sector, buffer.as_mut_slice())?;
            return Ok(Answer::Bytes(buffer));
        }
        DeviceCommand::Write(sector, bytes) => device.write(sector, bytes.as_slice())?,
        DeviceCommand::Barrier => device.barrier()?,
        DeviceCommand::Restart => device.restart()?,
    }
    Ok(Answer::Done)
}

// Does what a command says while a pile is in use and neither store nor ledger is open. Gives the device, or none
// where the pile was let go or the input ended.
fn obey<D: Device + Drop>(
    desk: &mut Desk,
    mut device: D,
    command: Command,
) -> anyhow::Result<Option<D>> {
    match command {
        Command::Start(Start::Format) => return format(desk, device),
        Command::Start(Start::Open) => return open(desk, device),
        Command::Start(Start::Make) => return make(desk, device),
        Command::Start(Start::OpenLedger) => return open_ledger(desk, device),
        Command::End => {
            desk.say(&Answer::Done)?;
            return Ok(None);
        }
        Command::Device(command) => desk.tell(call(&mut device, command))?,
        _other => desk.say(&Refusal::NotNow)?,
    }
    Ok(Some(device))
}

// Says how many sectors the pile has, then works through the input until the pile is let go or the
// input ends.
fn serve<D: Device + Drop>(desk: &mut Desk, mut device: D) -> anyhow::Result<()> {
    desk.say(&Answer::Count(device.sectors()))?;
    // Counted, as in `opened::hold`.
    for _ in 0..u64::MAX {
        let Some(command) = desk.next_command()? else {
            return Ok(());
        };
        let Some(left) = obey(desk, device, command)? else {
            return Ok(());
        };
        device = left;
    }
    Ok(())
}

// Serves a pile that was put together, or says why there is none.
pub fn put_in_use<D: Device + Drop>(
    desk: &mut Desk,
    pile: Result<D, DeviceFault>,
) -> anyhow::Result<()> {
    match pile {
        Ok(device) => serve(desk, device),
        Err(fault) => desk.say(&Refusal::from(fault)),
    }
}
