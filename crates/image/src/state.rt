// The memory of a store, and what it was when the transaction began.
ghost use Rattle.std.specs.Prelude.{◌≡◌, ℕ, length, slice_index};
ghost use Rattle.image.specs.Runs.{Declared};

use crate::runs::Runs;
use journal::MEMORY;

// The two differ in declared bytes alone. They are one memory at two times, and no pairs of bytes.
#[derive(Drop)]
pub struct Image {
    pub memory: [u8; MEMORY],
    pub before: [u8; MEMORY],
    pub runs: Runs,
    ghost whole: { length memory ≡ 6144 },
    ghost kept: { length before ≡ 6144 },
    ghost same: { (i : ℕ) → (Declared runs.items.items i → ⊥) → slice_index memory i ≡ slice_index before i },
}
