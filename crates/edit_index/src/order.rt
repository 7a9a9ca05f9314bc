// The order of an index: an entry for each record, and behind these one for each free slot. Entries are put in, taken
// out and moved in place.
ghost use Rattle.std.specs.Prelude.{◌≡◌, length, get_or};
ghost use Rattle.edit_index.specs.Order.{entry_of, slot_in, slots_from};
ghost use Rattle.edit_index.specs.Order.{with_entry, without_entry, moved_slot, moved_entry};

// An entry is a record's start × 65,536 + its slot.
pub const SLOT_NUMBERS: u64 = 65_536;

pub fn entry_of(start: u32, slot: u16) -> u64
    ensures { result ≡ entry_of start slot }
{
    start as u64 * SLOT_NUMBERS + slot as u64
}

// The slot of entry i, 0 beyond the end.
pub fn slot_at(order: &[u64], i: usize) -> u16
    ensures { result ≡ slot_in (get_or order.now i 0) }
{
    if i < order.len() {
        (order[i] % SLOT_NUMBERS) as u16
    } else {
        0
    }
}

// Sets the order to the slots from 0 on, all free.
#[tactic(auto, using(crate::proofs::OrderLaws::number_step))]
pub fn number_slots(order: &mut [u64])
    ensures { order.new ≡ slots_from 0 (length order.old) }
{
    for (i, entry) in order.iter_mut().enumerate() {
        *entry = i as u64;
    }
}

// Puts an entry in place `place` of `count` entries, over the one behind them, later ones moving up. Where there is no
// such place or no room, all stays.
pub fn insert(order: &mut [u64], count: usize, place: usize, entry: u64)
    ensures { order.new ≡ with_entry order.old count place entry }
{
    if order.len() <= count || count < place {
        return;
    }
    order.copy_within(place..count, place + 1);
    order[place] = entry;
}

// Puts entry `place` of `count` entries behind the others, later ones moving down. Where there is no such entry, all
// stays.
pub fn remove(order: &mut [u64], count: usize, place: usize)
    ensures { order.new ≡ without_entry order.old count place }
{
    if order.len() < count || count <= place {
        return;
    }
    let entry = order[place];
    order.copy_within(place + 1..count, place);
    order[count - 1] = entry;
}

// Puts entry `from` of `count` entries in place `to` of the others, with another start, and returns its slot; only the
// entries between the two places move. Where there is no such entry, the last of them (entry 0 of none) goes there
// instead; where there is no such place, the entry stays behind the others with its own start; where the order is
// shorter than `count`, all stays and the slot is 0.
pub fn move_entry(order: &mut [u64], count: usize, from: usize, to: usize, start: u32) -> u16
    ensures { (order.new ≡ moved_entry order.old count from to start)
        × (result ≡ moved_slot order.old count from) }
{
    if from < count && to < count && count <= order.len() {
        let slot = slot_at(order, from);
        let entry = entry_of(start, slot);
        if to <= from {
            insert(order, from, to, entry);
            return slot;
        }
        remove(order, to + 1, from);
        order[to] = entry;
        return slot;
    }
    remove(order, count, from);
    let others = count.saturating_sub(1);
    let slot = slot_at(order, others);
    insert(order, others, to, entry_of(start, slot));
    slot
}
