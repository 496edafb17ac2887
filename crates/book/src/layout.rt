// Where everything stands in the memory of a ledger: the total, the accounts, the heads of the chains, and the cells.
ghost use Rattle.std.specs.Prelude.{◌≡◌, ◌≤◌, ◌↔◌, IsTrue, length, sum};
ghost use Rattle.book.specs.Layout.{balance_at, head_at, cell_at};
ghost use Rattle.book.specs.Records.{bucket_of};
ghost use Rattle.book.specs.Book.{IsAccount};
ghost use Rattle.book.specs.Heads.{IsChain, chain_number};

/// How many accounts, buckets and cells there are.
pub const ACCOUNTS: u16 = 64;

pub const BUCKETS: u16 = 16;

pub const CELLS: u16 = 200;

/// The number of bytes of a cell.
pub const CELL: usize = 24;

/// Where the total stands that was issued.
pub const TOTAL: usize = 0;

/// The total stays below this, where the sign of a 64-bit number would begin.
pub const TOTALS: u64 = 0x8000_0000_0000_0000;

/// The free cells, the entries of an account, the tags of a bucket.
#[derive(Clone, Copy, PartialEq, Eq, Debug)]
pub enum Chain {
    Free,
    Account(u16),
    Bucket(u16),
}

impl Chain {
    /// Where the index of its first cell stands.
    pub fn head(self) -> usize
        ensures { IsChain self → result ≡ head_at (chain_number self) }
    {
        match self {
            Chain::Free => 8,
            Chain::Account(account) => balance_at(account) + 8,
            Chain::Bucket(bucket) => 1040 + 2 * bucket as usize,
        }
    }
}

/// Where an account has its balance.
pub fn balance_at(account: u16) -> usize
    ensures { result ≡ balance_at account }
{
    16 * account as usize
}

/// Where a cell stands.
pub fn cell_at(number: u16) -> usize
    ensures { result ≡ cell_at number }
{
    1048 + CELL * number as usize
}

/// Whether there is an account of this number.
pub fn is_account(number: u16) -> bool
    ensures { IsTrue result ↔ IsAccount number }
{
    (1..=ACCOUNTS).contains(&number)
}

/// The bucket that a tag belongs to.
pub fn bucket_of(id: &[u8; 8]) -> u16
    ensures { result ≡ bucket_of id.now }
{
    sum_of(id) % BUCKETS
}

// The sum of so few bytes that it has room.
fn sum_of(bytes: &[u8]) -> u16
    requires { length bytes.now ≤ 8 }
    ensures { result ≡ sum bytes.now }
{
    bytes.iter().map(|byte| *byte as u16).sum()
}
