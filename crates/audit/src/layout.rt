// The chains by their numbers.
ghost use Rattle.std.specs.Prelude.{◌≡◌, ◌+◌, ◌<◌, ◌≤◌};
ghost use Rattle.book.specs.Layout.{head_at};
ghost use Rattle.audit.specs.Owners.{Numbered};

use book::{ACCOUNTS, BUCKETS, Chain};

// How many chains: the free one, one for each account, one for each bucket.
pub(crate) const CHAINS: u16 = 1 + ACCOUNTS + BUCKETS;

// Where a chain has the index of its first cell.
pub(crate) fn head_place(chain: u16) -> usize
    requires { chain < 81 }
    ensures is { result ≡ head_at chain }
    ensures inside { result + 2 ≤ 1072 }
{
    numbered(chain).head()
}

// The chain of this number; where there is none, a bucket that is none.
pub(crate) fn numbered(chain: u16) -> Chain
    ensures { Numbered chain result }
{
    match chain {
        0 => Chain::Free,
        1..=ACCOUNTS => Chain::Account(chain),
        _ => Chain::Bucket(chain - ACCOUNTS - 1),
    }
}
