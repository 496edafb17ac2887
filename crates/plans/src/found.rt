// What is found in the chains of a memory.
ghost use Rattle.std.specs.Prelude.{◌+◌, ◌≤◌};
ghost use Rattle.book.specs.Layout.{InCells};

// A record in its cell: where the index stands that leads there, the cell, and the index of the next one.
#[derive(Drop)]
pub(crate) struct Found<R> {
    pub(crate) link: usize,
    pub(crate) number: u16,
    pub(crate) next: u16,
    pub(crate) record: R,
    ghost linked: { link + 2 ≤ 6144 },
    ghost inside: { InCells number },
}

// The front free cell, and the index of the next one.
#[derive(Clone, Copy)]
pub(crate) struct FreeCell {
    pub(crate) number: u16,
    pub(crate) next: u16,
    ghost inside: { InCells number },
}
