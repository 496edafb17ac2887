// The tests of the calls, each with its refusal.
ghost use Rattle.std.specs.Prelude.{◌+◌, ◌-◌, ◌^◌, nat_lt};
ghost use Rattle.book.specs.declared.fault.LedgerFault.TheVariants.{Short as short, Total as total};
ghost use Rattle.book.specs.Rows.{no_account, same, nothing};
ghost use Rattle.plans.specs.Plans.{Passes};

use book::{LedgerFault, TOTALS, is_account};

// The account is one.
pub(crate) fn check_account(account: u16) -> Result<(), LedgerFault>
    ensures { Passes (no_account account) result }
{
    if !is_account(account) {
        return Err(LedgerFault::Account(account));
    }
    Ok(())
}

// An account pays another one.
pub(crate) fn check_other(payer: u16, payee: u16) -> Result<(), LedgerFault>
    ensures { Passes (same payer payee) result }
{
    if payer == payee {
        return Err(LedgerFault::Same(payer));
    }
    Ok(())
}

// Something is paid or issued.
pub(crate) fn check_some(account: u16, amount: u64) -> Result<(), LedgerFault>
    ensures { Passes (nothing account amount) result }
{
    if amount == 0 {
        return Err(LedgerFault::Nothing(account));
    }
    Ok(())
}

// A balance reaches to pay so much.
pub(crate) fn check_balance(balance: u64, amount: u64) -> Result<(), LedgerFault>
    ensures { Passes (nat_lt balance amount, short balance) result }
{
    if balance < amount {
        return Err(LedgerFault::Short(balance));
    }
    Ok(())
}

// So much may be issued beside what is.
pub(crate) fn check_total(issued: u64, amount: u64) -> Result<(), LedgerFault>
    ensures { Passes (nat_lt (2 ^ 63 - 1) (issued + amount), total issued) result }
{
    if issued >= TOTALS || amount >= TOTALS - issued {
        return Err(LedgerFault::Total(issued));
    }
    Ok(())
}
