// A ledger opened again, and held to what must stand.
use crate::playing::{Played, is_cut};
use crate::script::{ACCOUNTS, State, TAGS, standing_after};
use crate::trouble::Trouble;
use book::{Entry, LedgerFault};
use device::Device;
use ledger::Ledger;
use transactions::StoreFault;

// Holds the balances of all accounts to what they must be.
fn hold_balances<D: Device>(ledger: &Ledger<D>, balances: &[u64; 3]) -> Result<(), Trouble> {
    for account in 1..=64u16 {
        let part = ACCOUNTS.iter().zip(balances).find(|(a, _)| **a == account);
        let balance = ledger.balance(account)?;
        if balance != part.map_or(0, |(_, expected)| *expected) {
            return Err(Trouble::Balance(account, balance));
        }
    }
    Ok(())
}

// Holds the tags to the accounts that they must have.
fn hold_owners<D: Device>(ledger: &Ledger<D>, owners: &[Option<u16>; 3]) -> Result<(), Trouble> {
    for (tag, expected) in TAGS.iter().zip(owners) {
        let owner = ledger.find(tag)?;
        if owner != *expected {
            return Err(Trouble::Owner(tag[0], owner));
        }
    }
    Ok(())
}

// Collects all entries of an account, and holds them to what they must be. The ordinals go on from the last one, and
// the new last one is answered.
fn collect_all<D: Device>(
    ledger: &mut Ledger<D>,
    last: u64,
    account: u16,
    entries: &[Entry],
) -> Result<u64, Trouble> {
    let mut last = last;
    for expected in entries {
        last = last.saturating_add(1);
        let (ordinal, entry) = ledger.collect(account, true)?;
        if ordinal != last {
            return Err(Trouble::Ordinal(ordinal));
        }
        if entry != *expected {
            return Err(Trouble::Entries(account));
        }
    }
    match ledger.collect(account, true) {
        Err(LedgerFault::NoEntry(_)) => Ok(last),
        Err(fault) => Err(Trouble::Refused(fault)),
        Ok(_) => Err(Trouble::Entries(account)),
    }
}

// Holds a ledger to what must stand in it after so many transactions, and collects its entries meanwhile. Answers how
// many transactions there are then.
fn hold_state<D: Device>(
    ledger: &mut Ledger<D>,
    found: u64,
    state: &State,
) -> Result<u64, Trouble> {
    let State(balances, owners, entries) = state;
    hold_balances(ledger, balances)?;
    hold_owners(ledger, owners)?;
    let mut last = found;
    for (account, entries) in ACCOUNTS.iter().zip(entries) {
        last = collect_all(ledger, last, *account, entries)?;
    }
    Ok(last)
}

// Holds a ledger to what must stand, works it, and opens it once more: all of that is found, and no stray.
fn hold_twice<D: Device + Drop>(
    mut ledger: Ledger<D>,
    found: u64,
    state: &State,
) -> Result<(), Trouble> {
    let last = hold_state(&mut ledger, found, state)?;
    let (mut ledger, opened) = Ledger::open(ledger.close());
    let (found, strays) = opened?;
    if found != last || strays != 0 {
        return Err(Trouble::Found(found));
    }
    let State(balances, owners, _) = *state;
    hold_state(
        &mut ledger,
        found,
        &State(balances, owners, [&[], &[], &[]]),
    )?;
    Ok(())
}

// Holds what an opening answered, and the ledger, to what must stand after the script came so far.
fn hold<D: Device + Drop>(
    ledger: Ledger<D>,
    opened: Result<(u64, usize), LedgerFault>,
    played: Played,
) -> Result<(), Trouble> {
    match opened {
        Ok((found, _)) => match standing_after(found) {
            Some(state) if played.kept <= found && found <= played.entered => {
                hold_twice(ledger, found, state)
            }
            _ => Err(Trouble::Found(found)),
        },
        // Where the make was cut there may be no log yet, or no ledger in it.
        Err(LedgerFault::Store(StoreFault::NoLog) | LedgerFault::NotLedger) if played.kept == 0 => {
            Ok(())
        }
        Err(fault) => Err(Trouble::Refused(fault)),
    }
}

// Opens what the script left, and holds it to what must stand.
pub fn open<D: Device + Drop>(device: D, played: Played) -> Result<(), Trouble> {
    let (ledger, opened) = Ledger::open(device);
    hold(ledger, opened, played)
}

// Opens what the script left where power is to fail in that, and answers whether it did. If so, opens it again on the
// same device.
pub fn open_cut<D: Device + Drop>(device: D, played: Played) -> Result<bool, Trouble> {
    let (ledger, opened) = Ledger::open(device);
    match opened {
        Err(fault) if is_cut(fault) => {
            open(ledger.close(), played)?;
            Ok(true)
        }
        _ => Ok(false),
    }
}
