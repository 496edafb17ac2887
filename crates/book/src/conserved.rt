// What every book conserves, said of the memory's bytes.
ghost use Rattle.std.specs.Prelude.{◌≡◌, ℕ, List, sum};
ghost use Rattle.book.specs.Layout.{byte_in};
ghost use Rattle.book.specs.Book.{Book, Holds};
ghost use Rattle.book.specs.Conserved.{Conserved};

/// Names the theorem that in a memory that holds a book the balances sum to what was issued, and each cell is met on
/// one chain, once.
pub fn a_book_is_conserved()
    ensures { (memory issued : List ℕ) (b : Book) → Holds (byte_in memory) b → b.issued ≡ sum issued → Conserved memory issued }
{}
