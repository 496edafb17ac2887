// Laying a record out in the bytes of a sector, from the front to the end.
ghost use Rattle.std.specs.Prelude.{◌≡◌, ◌+◌, ◌-◌, ◌≤◌, [], ◌++◌, length, take, drop, replicate};
ghost use Rattle.record.specs.Entry.{laid_out, label as label_bytes};
ghost use Rattle.record.specs.Fields.{digits};
ghost use Rattle.record.specs.Label.{spelled};

use crate::label::Label;
use crate::{DATA, Head};
use device::SECTOR;

// Puts bytes into the sector from `at` on.
#[tactic(auto, using(std::proofs::lemmas::Slice::overwrites))]
fn put(sector: &mut [u8; SECTOR], at: usize, bytes: &[u8])
    requires { at + length bytes.now ≤ SECTOR }
    ensures front { take (at + length bytes.now) sector.new ≡ take at sector.old ++ bytes.now }
    ensures rest { drop (at + length bytes.now) sector.new ≡ drop (at + length bytes.now) sector.old }
{
    sector[at..at + bytes.len()].copy_from_slice(bytes);
}

// Puts zeros into the sector from `at` on.
#[tactic(auto, using(std::proofs::lemmas::Slice::overwrites))]
fn clear(sector: &mut [u8; SECTOR], at: usize)
    requires { at ≤ SECTOR }
    ensures { sector.new ≡ take at sector.old ++ replicate (SECTOR - at) 0 }
{
    sector[at..].fill(0);
}

// Puts a record's own bytes behind the label, and zeros behind them. All the room for them is cleared first: a number
// of bytes that is fixed costs next to nothing, and a rest of any length a call.
fn put_data(sector: &mut [u8; SECTOR], bytes: &[u8])
    requires { length bytes.now ≤ 96 }
    ensures { sector.new ≡ take 32 sector.old ++ bytes.now ++ replicate (96 - length bytes.now) 0 }
{
    clear(sector, DATA);
    put(sector, DATA, bytes);
}

#[tactic(auto, using(crate::proofs::Numbers::bytes_8))]
fn put_head(sector: &mut [u8; SECTOR], head: Head)
    ensures { take 24 sector.new ≡ digits 8 head.serial ++ digits 8 head.low ++ digits 8 head.ordinal }
{
    put(sector, 0, &head.serial.to_le_bytes());
    put(sector, 8, &head.low.to_le_bytes());
    put(sector, 16, &head.ordinal.to_le_bytes());
}

// Puts the label into the front of the sector.
#[tactic(auto, using(crate::proofs::Numbers::bytes_2))]
fn put_label(sector: &mut [u8; SECTOR], label: Label)
    ensures { take 32 sector.new ≡ label_bytes (spelled label []) label.length }
{
    put_head(sector, label.head);
    put(sector, 24, &label.page.to_le_bytes());
    put(sector, 26, &label.offset.to_le_bytes());
    put(sector, 28, &(label.length as u16).to_le_bytes());
    put(sector, 30, &[label.kind.into(), 0]);
}

// Lays the record with this label and these bytes out.
#[tactic(auto, unfolding(crate::specs::Entry::laid_out))]
pub(crate) fn lay_out(sector: &mut [u8; SECTOR], label: Label, bytes: &[u8])
    requires { length bytes.now ≡ label.length }
    ensures { sector.new ≡ laid_out (spelled label bytes.now) }
{
    put_label(sector, label);
    put_data(sector, bytes);
}
