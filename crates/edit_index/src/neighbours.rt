// Whether an event overlaps one of the two records beside a place (02, W-204). Nothing else is looked at: in a sound
// list these two decide whether it overlaps any (`overlap_by_place` of `eit`).
ghost use Rattle.std.specs.Prelude.{◌≡◌, ℕ, List};
ghost use Rattle.eit.specs.Overlap.{overlap};
ghost use Rattle.edit_index.specs.Index.{lent_index};
ghost use Rattle.edit_index.specs.Neighbours.{overlaps_at, overlaps_neighbour};

use crate::order;
use eit::Record;
use list_records::records;

// Whether two events overlap: each starts before the other ends.
#[tactic(auto, using(crate::proofs::NeighbourLaws::overlap_not, crate::proofs::NeighbourLaws::overlap_if))]
fn overlap(one: Record, other: Record) -> bool
    ensures { result ≡ overlap one other }
{
    let other_end = other.start as u64 + other.duration as u64;
    if other_end <= one.start as u64 {
        return false;
    }
    let one_end = one.start as u64 + one.duration as u64;
    (other.start as u64) < one_end
}

// Whether an event overlaps record i of the others, which are the `count` records but that in place `own`; if there is
// no record i, it does not.
fn overlaps_at(
    slots: &[u32],
    order: &[u64],
    count: usize,
    own: usize,
    i: usize,
    event: Record,
) -> bool
    ensures { (ids : List ℕ) → result
        ≡ overlaps_at event (lent_index slots.now order.now ids count) own i }
{
    if count <= i {
        return false;
    }
    let at = i + (own <= i) as usize;
    if count <= at {
        return false;
    }
    let slot = order::slot_at(order, at);
    overlap(event, records::record_at(slots, slot as usize))
}

// Whether it overlaps the one before place `place` of the others, or the one behind it. With `count` for `own` no
// record is left out. Inlined, so that the compiler knows how long the lent arrays are.
#[inline(always)]
pub fn overlaps_neighbour(
    slots: &[u32],
    order: &[u64],
    count: usize,
    own: usize,
    place: usize,
    event: Record,
) -> bool
    ensures { (ids : List ℕ) → result
        ≡ overlaps_neighbour event (lent_index slots.now order.now ids count) own place }
{
    if place == 0 {
        return overlaps_at(slots, order, count, own, 0, event);
    }
    if overlaps_at(slots, order, count, own, place - 1, event) {
        return true;
    }
    overlaps_at(slots, order, count, own, place, event)
}
