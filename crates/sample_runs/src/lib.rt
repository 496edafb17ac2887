// Runs that the laws speak of: what the laws ask of a run is not too much to be met.

#![tactic(auto)]

ghost use Rattle.sample_runs.specs.Store.{StoreRun};
ghost use Rattle.sample_runs.specs.Ledger.{LedgerRun};

/// Names the theorem that a store is worked so: of two transactions the first is kept; a truncation is
/// cut by power, and so is the opening after it; the next one finds the first alone; a token of
/// another store is refused.
pub fn a_store_is_run()
    ensures { StoreRun }
{}

/// Names the theorem that a ledger is worked so: it is made; an issue waits; a truncation is cut by
/// power, and so is the opening after it; the next one finds the ledger as it was made.
pub fn a_ledger_is_run()
    ensures { LedgerRun }
{}
