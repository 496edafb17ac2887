// What holds of every log, as contracts: each call here does nothing, and is proved only with its theorem.
ghost use Rattle.std.specs.Prelude.{ℕ, ◌^◌, ◌<◌, ◌≤◌, List};
ghost use Rattle.record.specs.Theorems.{ReadsBack, ReadsSound, ZerosBad, RestIgnored, Finds, Edges};

// A record laid out reads back.
pub fn reads_back()
    ensures { ReadsBack }
{}

// What is read may stand where it was read.
pub fn reads_sound()
    ensures { ReadsSound }
{}

// Zeros are not good.
pub fn zeros_bad()
    ensures { ZerosBad }
{}

// The bytes up to the length say all.
pub fn rest_ignored()
    ensures { RestIgnored }
{}

// What is found at a place is what the rules say.
pub fn finds()
    ensures { (places place : ℕ) (sector : List ℕ) → Finds places place sector }
{}

// There are records at the ends of every range.
pub fn edges()
    ensures { (places : ℕ) → 1 ≤ places → places < 2 ^ 63 → Edges places }
{}
