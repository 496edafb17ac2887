// Sets of pages, and going over one.
ghost use Rattle.std.specs.Prelude.{◌≡◌, ◌≤◌, ◌==◌, length};
ghost use Rattle.transactions.specs.Pages.{members, due_of};

use journal::PageTable;

// Pages of the memory: bit p is 1 where page p is one of them.
#[derive(Clone, Copy)]
pub(crate) struct PageSet {
    pub bits: u64,
}

impl PageSet {
    // The pages that records name.
    pub(crate) fn dirty(table: &PageTable) -> PageSet
        ensures { result.bits ≡ table.now.named }
    {
        PageSet { bits: table.named }
    }

    // Those of them that no record has whole.
    pub(crate) fn due(table: &PageTable) -> PageSet
        ensures { members result.bits ≡ due_of table.now }
    {
        PageSet {
            bits: table.named & !table.covered,
        }
    }

    // Whether there are none.
    pub(crate) fn is_empty(&self) -> bool
        ensures { result ≡ (length (members self.now.bits) == 0) }
    {
        self.bits == 0
    }

    // How many there are.
    pub(crate) fn len(&self) -> usize
        ensures count { result ≡ length (members self.now.bits) }
        ensures few { result ≤ 64 }
    {
        self.bits.count_ones() as usize
    }

    // The pages, the lowest first.
    pub(crate) fn iter(&self) -> Pages
        ensures { result.left ≡ self.now.bits }
    {
        Pages { left: self.bits }
    }
}

// The pages of a set that were not given yet.
#[derive(Drop)]
pub(crate) struct Pages {
    left: u64,
}

impl Iterator for Pages {
    ghost use Rattle.std.specs.Iterator.{YieldsFirst, item_count};

    type Item = usize;

    ghost next_gives = { YieldsFirst (λ s. members s.left) };

    ghost remaining = { item_count (λ s. members s.left) };

    fn next(&mut self) -> Option<usize> {
        if self.left == 0 {
            return None;
        }
        let page = self.left.trailing_zeros();
        self.left &= !(1 << page);
        Some(page as usize)
    }
}
