// What a cell may hold: a tag, or an entry. Chains are written once for every kind of record.
ghost use Rattle.std.specs.Prelude.{◌≡◌, ℕ, ◌+◌, ◌≤◌, List, length, take, drop};
ghost use Rattle.record.specs.Fields.{digits};
ghost use Rattle.book.specs.Records.{ReadAs, laid, Parted, tag_kind, tag_content, TagFits, entry_kind, entry_content, EntryFits};
ghost use Rattle.book.specs.Laws.{tag_long, tag_same, entry_long, entry_same};

/// The number of bytes of a record in its cell.
pub const CONTENT: usize = 20;

/// A kind of record that a cell may hold: the byte that tells the kind, and the bytes of its content, from which the
/// same record is read.
pub trait CellRecord: Sized {
    const KIND: u8;

    ghost KIND: { ℕ };

    // Its bytes, and whether its numbers are such as the fields have room for.
    ghost content: { Self → List ℕ };

    ghost fits: { Self → Type 0 };

    fn to_content(&self) -> [u8; CONTENT]
        ensures { result ≡ content self.now };

    fn from_content(bytes: &[u8; CONTENT]) -> Option<Self>
        ensures { ReadAs content fits bytes.now result };

    ghost long: { (x : Self) → fits x → length (content x) ≡ 20 };

    ghost same: { (x y : Self) → fits x → fits y → content x ≡ content y → x ≡ y };
}

/// A tag, and the account whose visits it spends.
#[derive(Clone, Copy, PartialEq, Eq, Debug)]
pub struct Tag {
    pub id: [u8; 8],
    pub account: u16,
}

/// Who was paid how much by the account that has the entry.
#[derive(Clone, Copy, PartialEq, Eq, Debug)]
pub struct Entry {
    pub amount: u64,
    pub payee: u16,
}

impl CellRecord for Tag {
    const KIND: u8 = 1;

    ghost KIND = { tag_kind };

    ghost content = { tag_content };

    ghost fits = { TagFits };

    fn to_content(&self) -> [u8; CONTENT] {
        lay(self.id, self.account)
    }

    fn from_content(bytes: &[u8; CONTENT]) -> Option<Self> {
        let (id, account) = parts(bytes)?;
        Some(Tag { id, account })
    }

    ghost long = { tag_long };

    ghost same = { tag_same };
}

impl CellRecord for Entry {
    const KIND: u8 = 2;

    ghost KIND = { entry_kind };

    ghost content = { entry_content };

    ghost fits = { EntryFits };

    #[tactic(auto, using(record::proofs::Numbers::bytes_8))]
    fn to_content(&self) -> [u8; CONTENT] {
        lay(self.amount.to_le_bytes(), self.payee)
    }

    #[tactic(auto, using(crate::proofs::Contents::eight_long))]
    fn from_content(bytes: &[u8; CONTENT]) -> Option<Self> {
        let (amount, payee) = parts(bytes)?;
        Some(Entry {
            amount: number(&amount),
            payee,
        })
    }

    ghost long = { entry_long };

    ghost same = { entry_same };
}

// Both kinds are laid out alike: 8 bytes, the number of an account in 2, and zeros.
fn lay(front: [u8; 8], account: u16) -> [u8; CONTENT]
    ensures { result ≡ laid front account }
{
    let mut bytes = [0u8; CONTENT];
    bytes[0..8].copy_from_slice(&front);
    bytes[8..10].copy_from_slice(&account.to_le_bytes());
    bytes
}

// What is laid out in these bytes, if they end in zeros.
fn parts(bytes: &[u8; CONTENT]) -> Option<([u8; 8], u16)>
    ensures { Parted bytes.now result }
{
    if bytes[10..20] != [0; 10] {
        return None;
    }
    Some((part(bytes, 0), u16::from_le_bytes(part(bytes, 8))))
}

// The bytes from `at` on.
fn part<const N: usize>(bytes: &[u8; CONTENT], at: usize) -> [u8; N]
    requires { at + N ≤ CONTENT }
    ensures { result ≡ take N (drop at bytes.now) }
{
    bytes[at..at + N].try_into().unwrap()
}

// The number in 8 bytes.
fn number(bytes: &[u8; 8]) -> u64
    ensures { digits 8 result ≡ bytes.now }
{
    u64::from_le_bytes(*bytes)
}
