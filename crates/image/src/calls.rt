// What is done with the memory.
ghost use Rattle.image.specs.Calls.{declared, left, none, Declares, Writes, Reads, Restored, Kept};
ghost use Rattle.image.specs.Cut.{cut_runs};
ghost use Rattle.std.specs.Prelude.{◌≡◌, ◌≤◌, [], length, replicate};

use crate::run::{ImageFault, Run};
use crate::runs::{Pieces, Runs};
use crate::state::Image;
use journal::MEMORY;

impl Image {
    // A memory of zeros, with nothing declared.
    pub fn zeros() -> Image
        ensures memory { result.memory ≡ replicate 6144 0 }
        ensures before { result.before ≡ replicate 6144 0 }
        ensures clean { declared result ≡ [] }
    {
        Image::of([0; MEMORY])
    }

    // This memory, with nothing declared.
    pub fn of(memory: [u8; MEMORY]) -> Image
        ensures memory { result.memory ≡ memory }
        ensures before { result.before ≡ memory }
        ensures clean { declared result ≡ [] }
    {
        Image {
            memory,
            before: memory,
            runs: Runs::new(),
        }
    }

    // Whether nothing is declared.
    pub fn is_clean(&self) -> bool
        ensures { result ≡ none (declared self.now) }
    {
        self.runs.is_empty()
    }

    // Declares so many bytes from `start` on.
    pub fn declare(&mut self, start: usize, size: usize) -> Result<(), ImageFault>
        ensures { Declares start size self.old result self.new }
    {
        let stretch = Run::within(start, size)?;
        if !self.runs.join(stretch) {
            return Err(ImageFault::Runs(start));
        }
        Ok(())
    }

    // Puts the bytes in from `start` on, where every byte of that stretch is declared.
    pub fn write(&mut self, start: usize, bytes: &[u8]) -> Result<(), ImageFault>
        ensures { Writes start bytes.now self.old result self.new }
    {
        let end = Run::within(start, bytes.len())?.to;
        let reached = self.runs.reached(start);
        if reached < end {
            return Err(ImageFault::Undeclared(reached));
        }
        self.memory[start..end].copy_from_slice(bytes);
        Ok(())
    }

    // Fills the buffer with the bytes from `start` on.
    pub fn read(&self, start: usize, buffer: &mut [u8]) -> Result<(), ImageFault>
        ensures { Reads start self.now buffer.old result buffer.new }
    {
        let end = Run::within(start, buffer.len())?.to;
        buffer.copy_from_slice(&self.memory[start..end]);
        Ok(())
    }

    // Makes the memory what it was before, with nothing declared.
    pub fn restore(&mut self)
        ensures { Restored self.old self.new }
    {
        self.runs.copy(&self.before, &mut self.memory);
        self.runs.clear();
    }

    // Keeps the memory as it is, with nothing declared.
    pub fn keep(&mut self)
        ensures { Kept self.old self.new }
    {
        self.runs.copy(&self.memory, &mut self.before);
        self.runs.clear();
    }

    /// How many pieces the declared runs are cut into: 79 at most.
    pub fn piece_count(&self) -> usize
        ensures count { result ≡ length (cut_runs (declared self.now)) }
        ensures few { result ≤ 79 }
    {
        self.runs.piece_count()
    }

    /// The declared runs cut at the bounds of pages, the lowest first, as they are asked for.
    #[inline]
    pub fn pieces(&self) -> Pieces<'_>
        ensures { left result ≡ cut_runs (declared self.now) }
    {
        self.runs.pieces()
    }
}
