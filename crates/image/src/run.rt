// Stretches of the memory.
ghost use Rattle.std.specs.Prelude.{◌≡◌, ℕ, ◌+◌, ◌/◌, ◌%◌, ◌<◌, ◌≤◌, [], ◌∷◌, length, if◌then◌else◌, slice_index};
ghost use Rattle.image.specs.Runs.{is_declared};
ghost use Rattle.image.specs.Cut.{cut};
ghost use Rattle.image.specs.Stretch.{Stretches};

use journal::MEMORY;
use record::PAGE;

// The bytes from `from` up to, and not with, `to`.
#[derive(Clone, Copy, PartialEq, Eq, Debug, Default)]
pub struct Run {
    pub from: usize,
    pub to: usize,
}

impl Run {
    // So many bytes of the memory from `start` on.
    pub(crate) fn within(start: usize, size: usize) -> Result<Run, ImageFault>
        ensures { Stretches start size result }
    {
        if size == 0 || size > MEMORY || start > MEMORY - size {
            return Err(ImageFault::Range(start));
        }
        Ok(Run {
            from: start,
            to: start + size,
        })
    }

    // Copies the bytes of the run. That it ends in the memory is asked, here and below, since the definitions make
    // runs of any two numbers.
    pub(crate) fn copy(&self, source: &[u8; MEMORY], target: &mut [u8; MEMORY])
        requires some { self.now.from ≤ self.now.to }
        requires inside { self.now.to ≤ 6144 }
        ensures { (i : ℕ) → slice_index target.new i ≡ (if is_declared (self.now ∷ []) i then slice_index source.now i else slice_index target.old i) }
    {
        target[self.from..self.to].copy_from_slice(&source[self.from..self.to]);
    }

    // How many pages it reaches into: it is cut at the bounds between them.
    #[inline]
    #[tactic(auto, using(crate::proofs::Cutting::run_count))]
    pub(crate) fn piece_count(&self) -> usize
        requires some { self.now.from < self.now.to }
        requires inside { self.now.to ≤ 6144 }
        ensures { result ≡ length (cut 64 self.now.from self.now.to) }
    {
        (self.to - 1) / PAGE - self.from / PAGE + 1
    }
}

// So many bytes from `start` on, all in one page.
#[derive(Clone, Copy, PartialEq, Eq, Debug, Default)]
pub struct Piece {
    pub start: usize,
    pub size: usize,
}

impl Piece {
    // The page that it lies in.
    pub fn page(&self) -> usize
        ensures { result ≡ self.now.start / 96 }
    {
        self.start / PAGE
    }

    // Where in its page it begins.
    pub fn offset(&self) -> usize
        ensures { result ≡ self.now.start % 96 }
    {
        self.start % PAGE
    }
}

// Why a call is refused.
#[derive(Clone, Copy, PartialEq, Eq, Debug)]
pub enum ImageFault {
    // The stretch from this byte on has no bytes, or goes past the memory.
    Range(usize),
    // With the stretch from this byte on there would be more than sixteen runs.
    Runs(usize),
    // This byte is not declared.
    Undeclared(usize),
}
