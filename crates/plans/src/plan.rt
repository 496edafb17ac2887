// A plan: the numbers from which follows what a change puts into the memory. Its bytes are made where they are put in,
// so that none is kept and moved before.
ghost use Rattle.std.specs.Prelude.{◌+◌, ◌≤◌};

use book::CONTENT;

/// More in an account, and in the total: what they have then.
#[derive(Clone, Copy)]
pub struct Issue {
    pub total: u64,
    pub account: u16,
    pub balance: u64,
    pub ghost known: { account ≤ 64 },
}

/// A cell changes its chain: it comes from the free ones, or goes to them.
#[derive(Clone, Copy)]
pub struct Relink {
    // Where the index stands by which the other chain is changed, and the cell to which it leads then.
    pub link: usize,
    pub to: u16,
    // The cell, and what it has then: the index of the next one, its kind and its content.
    pub number: u16,
    pub next: u16,
    pub kind: u8,
    pub content: [u8; CONTENT],
    // The front free cell then.
    pub free: u16,
    pub ghost linked: { link + 2 ≤ 6144 },
    pub ghost inside: { number ≤ 200 },
}

/// What the payer has left, what the payee has then, and the entry of it.
#[derive(Clone, Copy)]
pub struct Payment {
    pub payer: u16,
    pub left: u64,
    pub payee: u16,
    pub grown: u64,
    pub entry: Relink,
    pub ghost paying: { payer ≤ 64 },
    pub ghost paid: { payee ≤ 64 },
}

/// What a change puts into the memory.
#[derive(Clone, Copy)]
pub enum Plan {
    Issue(Issue),
    Payment(Payment),
    Relink(Relink),
}
