// A table for each device.
use super::*;
use battery::Battery;
use bench::Bench;
use cache::Cache;
use cards::Card;
use mirror::Mirror;
use std::process::Abort;
use std::test::Fail;

// Makes the calls of a table in turn, and holds each answer to the one beside it.
fn holds<D: Device>(rt: &impl Abort, device: &mut D, table: &[(Call, Result<Reply, DeviceFault>)]) {
    for (call, reply) in table {
        assert_eq!(rt; play(device, *call), *reply);
    }
}

#[test]
fn battery_keeps_everything(rt: HostRuntime) {
    let mut device = Battery::new(7);
    holds(
        &rt,
        &mut device,
        &[
            (Call::Count, Ok(Reply::Sectors(224))),
            (Call::Read(223), Ok(Reply::Full(0))),
            (Call::Write(223, 5), Ok(Reply::Done)),
            (Call::Restart, Ok(Reply::Done)),
            (Call::Read(223), Ok(Reply::Full(5))),
            (Call::Read(222), Ok(Reply::Full(0))),
            (Call::Barrier, Ok(Reply::Done)),
            (Call::Write(224, 5), Err(DeviceFault::Misaddressed(224, 7))),
            (
                Call::WriteOnly(0, 127),
                Err(DeviceFault::Misaddressed(0, 7)),
            ),
            (Call::ReadInto(0, 129), Err(DeviceFault::Misaddressed(0, 7))),
            (Call::Read(0), Ok(Reply::Full(0))),
        ],
    );
}

#[test]
fn bench_takes_a_code_for_each_write(rt: HostRuntime) -> Result<(), Fail> {
    let mut card = Card::blank(rt.alloc(), 4, 9)?;
    card.plan = vec![in rt.alloc(); 0, 1, 2, 3]?;
    holds(
        &rt,
        &mut card.device()?,
        &[
            (Call::Write(0, 1), Ok(Reply::Done)),
            (Call::Write(4, 1), Err(DeviceFault::Misaddressed(4, 9))),
            (Call::Write(0, 2), Err(DeviceFault::Power(9))),
            (Call::Read(0), Err(DeviceFault::Power(0))),
            (Call::Barrier, Err(DeviceFault::Power(0))),
            (Call::Write(9, 2), Err(DeviceFault::Power(0))),
            (Call::Restart, Ok(Reply::Done)),
            (Call::Read(0), Ok(Reply::Full(1))),
            (Call::Write(0, 3), Err(DeviceFault::Power(9))),
            (Call::Restart, Ok(Reply::Done)),
            (Call::Read(0), Ok(Reply::Full(3))),
            (Call::Write(0, 4), Err(DeviceFault::Power(9))),
            (Call::Restart, Ok(Reply::Done)),
            (Call::Read(0), Err(DeviceFault::Spoiled(0, 9))),
            (Call::Write(0, 5), Ok(Reply::Done)),
            (Call::Read(0), Ok(Reply::Full(5))),
        ],
    );
    Ok(())
}

// What a card holds in a sector, told as a device over it would.
fn held(card: &Card, sector: usize) -> Option<Result<Reply, DeviceFault>> {
    let bytes = card.sectors.get(sector)?;
    let flag = *card.flags.get(sector)?;
    Some(if flag == 0 {
        Ok(content(bytes))
    } else {
        Err(DeviceFault::Spoiled(sector, card.origin))
    })
}

// Makes the calls on a device over the card, whatever they answer, and tells what it shows then. Power is put back
// for that: a restart mends nothing.
fn shown_after(
    card: &mut Card,
    calls: &[Call],
) -> Result<[Result<Reply, DeviceFault>; 3], DeviceFault> {
    let mut device = card.device()?;
    for call in calls {
        let _ = play(&mut device, *call);
    }
    device.restart()?;
    Ok([
        play(&mut device, Call::Read(0)),
        play(&mut device, Call::Read(1)),
        play(&mut device, Call::Read(2)),
    ])
}

// No clause says what a card holds once a device made by `new` is gone, so the two are compared after each call.
#[test]
fn card_holds_what_its_device_shows(rt: HostRuntime) -> Result<(), Fail> {
    let calls = [
        Call::Write(0, 1),
        Call::Write(1, 2),
        Call::Write(2, 7),
        Call::Barrier,
        Call::Restart,
        Call::Write(3, 8),
        Call::WriteOnly(0, 127),
        Call::ReadInto(1, 129),
        Call::Write(0, 3),
        Call::Write(1, 8),
        Call::Restart,
        Call::Write(1, 4),
        Call::Barrier,
        Call::Restart,
        Call::Read(1),
        Call::Write(2, 5),
        Call::Restart,
        Call::Write(1, 6),
    ];
    for made in 0..calls.len() + 1 {
        let mut card = Card::blank(rt.alloc(), 3, 9)?;
        card.plan = vec![in rt.alloc(); 0, 0, 1, 2, 3, 3]?;
        let shown = shown_after(&mut card, &calls[..made])?;
        for (sector, answer) in shown.iter().enumerate() {
            assert_eq!(rt; held(&card, sector), Some(*answer));
        }
    }
    Ok(())
}

// Whether a device is made of this many bytes and flags, and this plan. They stay as they were either way.
fn fits(size: usize, sectors: usize, plan: &[u8]) -> Option<bool> {
    let mut bytes = [5u8; 256];
    let mut flags = [6u8; 2];
    let made = Bench::new(
        &mut bytes[..size.min(256)],
        &mut flags[..sectors.min(2)],
        plan,
        1,
    )
    .is_ok();
    (bytes == [5u8; 256] && flags == [6u8; 2]).then_some(made)
}

#[test]
fn bench_refuses_what_does_not_fit(rt: HostRuntime) {
    assert_eq!(rt; fits(129, 1, &[]), Some(false));
    assert_eq!(rt; fits(127, 1, &[]), Some(false));
    assert_eq!(rt; fits(128, 2, &[]), Some(false));
    assert_eq!(rt; fits(128, 1, &[0, 4]), Some(false));
    assert_eq!(rt; fits(128, 1, &[3]), Some(true));
    assert_eq!(rt; fits(256, 2, &[]), Some(true));
    assert_eq!(rt; fits(0, 0, &[]), Some(true));
}

#[test]
fn lent_slices_hold_what_was_written(rt: HostRuntime) {
    let mut bytes = [0u8; 256];
    let mut flags = [0u8, 1];
    assert_eq!(rt;
        lent::write_once(&mut bytes, &mut flags, 1, &[7u8; 128]),
        Ok(Ok(()))
    );
    assert_eq!(rt; content(&bytes[..128]), Reply::Full(0));
    assert_eq!(rt; content(&bytes[128..]), Reply::Full(7));
    assert_eq!(rt; flags, [0u8; 2]);
    let unfit = lent::write_once(&mut bytes[..255], &mut flags, 1, &[8u8; 128]);
    assert_eq!(rt; unfit, Err(DeviceFault::Unfit));
    assert_eq!(rt; content(&bytes[128..]), Reply::Full(7));
}

#[test]
fn mirror_works_right_then_left(rt: HostRuntime) -> Result<(), Fail> {
    let mut left = Card::blank(rt.alloc(), 2, 1)?;
    let mut right = Card::blank(rt.alloc(), 2, 2)?;
    left.plan = vec![in rt.alloc(); 0, 3, 3]?;
    right.plan = vec![in rt.alloc(); 0, 0, 1, 3]?;
    holds(
        &rt,
        &mut Mirror::new(left.device()?, right.device()?),
        &[
            (Call::Count, Ok(Reply::Sectors(2))),
            (Call::Write(0, 1), Ok(Reply::Done)),
            (Call::Write(2, 1), Err(DeviceFault::Misaddressed(2, 0))),
            (Call::Write(0, 2), Err(DeviceFault::Power(1))),
            (Call::Read(0), Err(DeviceFault::Power(0))),
            (Call::Restart, Ok(Reply::Done)),
            (Call::Read(0), Ok(Reply::Full(2))),
            (Call::Write(0, 3), Err(DeviceFault::Power(2))),
            (Call::Restart, Ok(Reply::Done)),
            (Call::Read(0), Ok(Reply::Full(2))),
            (Call::Write(0, 4), Err(DeviceFault::Power(2))),
            (Call::Restart, Ok(Reply::Done)),
            (Call::Read(0), Err(DeviceFault::Spoiled(0, 2))),
        ],
    );
    Ok(())
}

#[test]
fn cache_sends_down_in_turn(rt: HostRuntime) -> Result<(), Fail> {
    // Its eight places are filled first.
    let mut card = Card::blank(rt.alloc(), 10, 3)?;
    card.plan = vec![in rt.alloc(); 1]?;
    let mut device = Cache::new(card.device()?);
    // Numbers of sectors, which index nothing.
    for sector in 0..8usize {
        assert_eq!(rt; play(&mut device, Call::Write(sector, 1)), Ok(Reply::Done));
    }
    holds(
        &rt,
        &mut device,
        &[
            (Call::Write(0, 2), Ok(Reply::Done)),
            (Call::Read(0), Ok(Reply::Full(2))),
            (Call::Write(8, 1), Err(DeviceFault::Power(3))),
            (Call::Read(0), Err(DeviceFault::Power(0))),
            (Call::Restart, Ok(Reply::Done)),
            (Call::Read(0), Ok(Reply::Full(0))),
            (Call::Write(0, 4), Ok(Reply::Done)),
            (Call::Barrier, Ok(Reply::Done)),
            (Call::Restart, Ok(Reply::Done)),
            (Call::Read(0), Ok(Reply::Full(4))),
            (Call::Write(10, 1), Err(DeviceFault::Misaddressed(10, 0))),
        ],
    );
    Ok(())
}
