// What a log still says after power failed while it was written: the promises that the store rests on.

#![tactic(auto)]

ghost use Rattle.durability.specs.Promises.{AppendCut, Appended, FirmOpens, Formatted, NotRefused};
ghost use Rattle.durability.specs.Promises.{ClearCut, Cleared, HomeCut, Homed, MarkCut, Marked};

// Names the theorem that a log that stands firm opens to itself.
pub fn a_firm_log_opens()
    ensures { FirmOpens }
{}

// Names the theorem that an opening that finds a log does not refuse it.
pub fn a_found_log_is_not_refused()
    ensures { NotRefused }
{}

// Names the theorem that a new log stands firm on zeros.
pub fn a_new_log_is_firm()
    ensures { Formatted }
{}

// Names the theorem that items that were appended and settled are part of the log.
pub fn appended_items_are_firm()
    ensures { Appended }
{}

// Names the theorem that where power cuts an append, the log opens with the first of the items, up to one that
// ends a transaction.
pub fn a_cut_append_opens()
    ensures { AppendCut }
{}

// Names the theorem that what an opening found stands firm once its strays are cleared and settled.
pub fn cleared_strays_leave_a_firm_log()
    ensures { Cleared }
{}

// Names the theorem that an opening after a clearing that power cut finds the same.
pub fn a_cut_clearing_opens_the_same()
    ensures { ClearCut }
{}

// Names the theorem that homes of pages that the log covers may be written without a loss.
pub fn homes_may_be_written()
    ensures { Homed }
{}

// Names the theorem that an opening after a writing of homes that power cut finds the same.
pub fn a_cut_homing_opens_the_same()
    ensures { HomeCut }
{}

// Names the theorem that a log may begin anew at a mark, where its homes alone make the memory.
pub fn a_mark_moves_low()
    ensures { Marked }
{}

// Names the theorem that an opening after a mark that power cut finds the log with the old low or with the new.
pub fn a_cut_mark_opens()
    ensures { MarkCut }
{}
