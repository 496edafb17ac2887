// The page table of a log: which pages its records name, and which of them a record has whole.
ghost use Rattle.std.specs.Prelude.{◌≡◌, ◌==◌};
ghost use Rattle.std.specs.Int.{bit_at};
ghost use Rattle.journal.specs.Pages.{named_in, covered_in, unsaid, Told};

use record::PAGES;

// What records say of the pages, one bit for each.
#[derive(Clone, Copy, PartialEq, Eq, Debug)]
pub struct PageTable {
    // Bit p is 1 where a part or a page record names page p.
    pub named: u64,
    // Bit p is 1 where such a record has all of page p.
    pub covered: u64,
}

// Whether the bit of this page is 1; there is none past the last page.
#[tactic(auto, using(crate::proofs::Tables::no_bit))]
fn has_bit(bits: u64, page: usize) -> bool
    ensures { result ≡ (bit_at bits page == 1) }
{
    page < PAGES && bits >> page & 1 == 1
}

impl PageTable {
    // The table in which nothing is said of any page.
    pub fn new() -> PageTable
        ensures { result ≡ unsaid }
    {
        PageTable {
            named: 0,
            covered: 0,
        }
    }

    // Notes that a record names this page, and that it has the whole page if `whole`. Where there is no such page
    // nothing changes.
    pub fn note(&mut self, page: usize, whole: bool)
        ensures { Told page whole self.old self.new }
    {
        if page >= PAGES {
            return;
        }
        let bit = 1 << page;
        self.named |= bit;
        if whole {
            self.covered |= bit;
        }
    }

    // Whether a record names this page.
    pub fn is_named(&self, page: usize) -> bool
        ensures { result ≡ named_in self.now page }
    {
        has_bit(self.named, page)
    }

    // Whether a record has all of this page.
    pub fn is_covered(&self, page: usize) -> bool
        ensures { result ≡ covered_in self.now page }
    {
        has_bit(self.covered, page)
    }
}
