// A card: the bytes under a bench device, which stay when the device is let go.

#![tactic(auto)]

ghost use Rattle.std.specs.Prelude.{◌≡◌, [], replicate, IfOk};
ghost use Rattle.std.specs.List.{flat_map};
ghost use Rattle.bench.specs.Calls.{Made};

use bench::Bench;
use device::{DeviceFault, SECTOR};
use std::alloc::{AllocError, Global};

#[derive(Drop)]
pub struct Card {
    pub sectors: Vec<[u8; SECTOR]>,
    // One a sector; not zero where it is spoiled. A bench device borrows them apart from the sectors, as bytes.
    pub flags: Vec<u8>,
    // The power plan of the next device over it.
    pub plan: Vec<u8>,
    pub origin: u8,
}

impl Card {
    // A card of zeros, with no sector spoiled and an empty plan.
    pub fn blank(heap: Global, sectors: usize, origin: u8) -> Result<Card, AllocError>
        ensures bytes { IfOk result (λ c. c.sectors.items ≡ replicate sectors (replicate 128 0)) }
        ensures whole { IfOk result (λ c. c.flags.items ≡ replicate sectors 0) }
        ensures plan { IfOk result (λ c. c.plan.items ≡ []) }
        ensures origin { IfOk result (λ c. c.origin ≡ origin) }
    {
        Ok(Card {
            sectors: vec![in heap; [0u8; SECTOR]; sectors]?,
            flags: vec![in heap; 0u8; sectors]?,
            plan: Vec::new(heap),
            origin,
        })
    }

    // The bench device over the card.
    pub fn device(&mut self) -> Result<Bench<'_, '_, '_>, DeviceFault>
        ensures { Made (flat_map (λ s. s) self.old.sectors.items) self.old.flags.items self.old.plan.items self.old.origin result }
    {
        let Card {
            sectors,
            flags,
            plan,
            origin,
        } = self;
        Bench::new(
            sectors.as_flattened_mut(),
            flags.as_mut_slice(),
            plan.as_slice(),
            *origin,
        )
    }
}
