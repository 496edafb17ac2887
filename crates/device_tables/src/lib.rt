// Tables of device calls with the answers that each device must give.

#![tactic(auto)]

ghost use Rattle.std.specs.Prelude.{◌≡◌};

mod lent;

use device::{Device, DeviceFault, SECTOR};

// A device call; a sector is written full of one byte.
#[derive(Clone, Copy)]
pub enum Call {
    Count,
    Read(usize),
    ReadInto(usize, usize),
    Write(usize, u8),
    WriteOnly(usize, usize),
    Barrier,
    Restart,
}

// What a call that is not refused answers; a sector that is full of one byte is told by that byte.
#[derive(Clone, Copy, PartialEq, Eq, Debug)]
pub enum Reply {
    Done,
    Sectors(usize),
    Full(u8),
    Mixed,
}

// Longer than any sector, for buffers of the wrong length.
const ROOM: usize = 160;

// What a buffer holds.
fn content(bytes: &[u8]) -> Reply {
    match bytes.split_first() {
        Some((first, rest)) if rest.iter().all(|b| *b == *first) => Reply::Full(*first),
        _ => Reply::Mixed,
    }
}

fn read<D: Device>(device: &mut D, sector: usize, length: usize) -> Result<Reply, DeviceFault> {
    let mut room = [0u8; ROOM];
    let buffer = &mut room[..length.min(ROOM)];
    device.read(sector, buffer)?;
    Ok(content(buffer))
}

fn write<D: Device>(
    device: &mut D,
    sector: usize,
    byte: u8,
    length: usize,
) -> Result<Reply, DeviceFault> {
    let room = [byte; ROOM];
    device.write(sector, &room[..length.min(ROOM)])?;
    Ok(Reply::Done)
}

// Makes one call of the device.
pub(crate) fn play<D: Device>(device: &mut D, call: Call) -> Result<Reply, DeviceFault> {
    match call {
        Call::Count => Ok(Reply::Sectors(device.sectors())),
        Call::Read(sector) => read(device, sector, SECTOR),
        Call::ReadInto(sector, length) => read(device, sector, length),
        Call::Write(sector, byte) => write(device, sector, byte, SECTOR),
        Call::WriteOnly(sector, length) => write(device, sector, 255, length),
        Call::Barrier => device.barrier().map(|()| Reply::Done),
        Call::Restart => device.restart().map(|()| Reply::Done),
    }
}

#[cfg(test)]
mod tests;
