// The sectors that a cache holds.
ghost use Rattle.std.specs.Prelude.{◌≡◌, ◌<◌, ◌≤◌, ◌==◌, [], ◌∷◌, ◌++◌, length, drop, reverse};
ghost use Rattle.std.specs.List.{find};
ghost use Rattle.std.specs.Option.{option_map};
ghost use Rattle.cache.specs.Held.{slot, rewritten};

use device::SECTOR;
use std::marker::Model;

// How many sectors a cache holds at most.
pub const SLOTS: usize = 8;

// A sector's number, and the bytes that were written to it.
#[derive(Clone, Copy, Default)]
pub struct Slot {
    pub sector: usize,
    pub bytes: [u8; SECTOR],
}

impl Slot {
    // The sector with a copy of its bytes, made of zeros and filled as every sector's buffer is.
    pub(crate) fn new(sector: usize, bytes: &[u8]) -> Self
        requires { length bytes.now ≡ 128 }
        ensures { result ≡ slot sector bytes.now }
    {
        let mut copy = [0u8; SECTOR];
        copy.copy_from_slice(bytes);
        Slot {
            sector,
            bytes: copy,
        }
    }
}

// A ring of slots: `count` of them are in use, from `first` on, round the end. So the longest held sector is let go
// without a move of the others, which a vector's `remove` makes.
#[derive(Drop)]
pub struct Held {
    slots: [Slot; SLOTS],
    first: usize,
    count: usize,
}

// A clause sees the slots in use, the longest held first.
impl Model for Held {
    ghost use Rattle.std.specs.Prelude.{◌≡◌, ◌<◌, ◌≤◌, List, length, take};
    ghost use Rattle.cache.specs.declared.held.Slot.{Slot};
    ghost use Rattle.cache.specs.Ring.{ring};

    ghost Value = { List Slot };

    ghost view = { λ h. take h.count (ring h.first h.slots) };

    ghost invariant = { λ h. (length h.slots ≡ 8) × (h.first < 8) × (h.count ≤ 8) };
}

impl Held {
    pub(crate) fn new() -> Self
        ensures { result ≡ [] }
    {
        Held {
            slots: [Slot {
                sector: 0,
                bytes: [0; SECTOR],
            }; SLOTS],
            first: 0,
            count: 0,
        }
    }

    #[inline]
    pub(crate) fn len(&self) -> usize
        ensures { result ≡ length self.now }
    {
        self.count
    }

    #[inline]
    pub(crate) fn is_empty(&self) -> bool
        ensures { result ≡ (length self.now == 0) }
    {
        self.count == 0
    }

    #[inline]
    pub(crate) fn is_full(&self) -> bool
        ensures full { result ≡ (length self.now == 8) }
        ensures few { length self.now ≤ 8 }
    {
        self.count == SLOTS
    }

    // The slot of this sector, if it is held. It is looked for from the end, where a later write would be. By its place
    // and not in two slices of the ring: so the search is short where nothing is held, as in an opening.
    #[inline]
    #[tactic(auto, using(crate::proofs::Slots::ring_none))]
    pub(crate) fn find(&self, sector: usize) -> Option<&Slot>
        ensures { option_map (λ l. l.now) result ≡ find (λ l. l.sector == sector) (reverse self.now) }
    {
        for at in (self.first..self.first + self.count).rev() {
            let slot = &self.slots[at % SLOTS];
            if slot.sector == sector {
                return Some(slot);
            }
        }
        None
    }

    // Gives the sector its new bytes in its old turn. A slot out of use may change too, unseen.
    #[inline]
    pub(crate) fn rewrite(&mut self, new: Slot)
        ensures { self.new ≡ rewritten new.sector new.bytes self.old }
    {
        for slot in &mut self.slots {
            if slot.sector == new.sector {
                *slot = new;
            }
        }
    }

    // Takes a sector in at the end.
    #[inline]
    pub(crate) fn push(&mut self, slot: Slot)
        requires { length self.old < 8 }
        ensures { self.new ≡ self.old ++ slot ∷ [] }
    {
        self.slots[(self.first + self.count) % SLOTS] = slot;
        self.count += 1;
    }

    // The slot of the longest held sector.
    #[inline]
    pub(crate) fn oldest(&self) -> &Slot
        requires { 0 < length self.now }
        ensures { self.now ≡ result.now ∷ drop 1 self.now }
    {
        &self.slots[self.first]
    }

    // Lets the longest held sector go.
    #[inline]
    pub(crate) fn drop_oldest(&mut self)
        requires { 0 < length self.old }
        ensures { self.new ≡ drop 1 self.old }
    {
        self.first = (self.first + 1) % SLOTS;
        self.count -= 1;
    }

    // Lets every held sector go.
    #[inline]
    pub(crate) fn clear(&mut self)
        ensures { self.new ≡ [] }
    {
        self.count = 0;
    }
}
