// The index: its records are looked up by id, put in and taken out, made from the list and written back to it. Edit
// lends it arrays of its stack. What needs a part of the arrays alone is a function on these, too.
ghost use Rattle.std.specs.Prelude.{◌≡◌, ℕ, ◌-◌, List, get_or, set, take};
ghost use Rattle.edit_index.specs.Order.{slot_in};
ghost use Rattle.edit_index.specs.Index.{lent_index, led_by, slot_led, record_led, one_more, added, taken_out};
ghost use Rattle.edit_index.specs.Index.{emptied, loaded, stored};
ghost use Rattle.edit_index.specs.Neighbours.{overlaps_neighbour};

use crate::{neighbours, order};
use eit::Record;
use eit::limits::EVENTS_MAX;
use list_records::records;
use std::marker::Model;

// Slots of an index that has room for any list.
pub const SLOTS: usize = EVENTS_MAX;

// Ids, 0 to 65,535.
pub const IDS: usize = 65_536;

// What stands for no slot: `ids` has no room for an option (no heap, fixed memory).
pub const NO_SLOT: u16 = 65_535;

// A record in each slot; the order of the slots by the starts of their records, those of no record behind the others;
// and the slot of each id's record.
#[derive(Drop)]
pub struct Index<'a> {
    pub slots: &'a mut [u32],
    pub order: &'a mut [u64],
    pub ids: &'a mut [u16],
    pub count: usize,
}

impl<'a> Model for Index<'a> {
    ghost use Rattle.edit_index.specs.Index.{Index};

    ghost Value = { Index };

    ghost view = { λ x. record { slots = x.slots.now; order = x.order.now; ids = x.ids.now; count = x.count } };
}

// Leads an id to a slot. Beyond the ids, all stays.
fn set_slot(ids: &mut [u16], id: u32, slot: u16)
    ensures { ids.new ≡ set ids.old id slot }
{
    let i = id as usize;
    if i < ids.len() {
        ids[i] = slot;
    }
}

// The slot to which the ids lead an id.
pub fn slot_of(ids: &[u16], id: u32) -> Option<u16>
    ensures { result ≡ led_by ids.now id }
{
    let i = id as usize;
    if i < ids.len() && ids[i] != NO_SLOT {
        Some(ids[i])
    } else {
        None
    }
}

// Takes record `place` of `count` records, which has the id, out.
pub fn take_out(order: &mut [u64], ids: &mut [u16], count: usize, place: usize, id: u32)
    ensures { (slots : List ℕ) → lent_index slots order.new ids.new (count - 1)
        ≡ taken_out place id (lent_index slots order.old ids.old count) }
{
    order::remove(order, count, place);
    set_slot(ids, id, NO_SLOT);
}

// Writes the records of an index to the front of the list, in their order.
pub fn store(list: &mut [u32], slots: &[u32], order: &[u64], count: usize)
    ensures { (ids : List ℕ) → list.new
        ≡ stored list.old (lent_index slots.now order.now ids count) count }
{
    for i in 0..count {
        let slot = order::slot_at(order, i);
        records::write_record(list, i, records::record_at(slots, slot as usize));
    }
}

// One record more, as far as the order has entries.
fn one_more(entries: usize, count: usize) -> usize
    ensures { result ≡ one_more entries count }
{
    if count < entries { count + 1 } else { count }
}

impl Index<'_> {
    // How many records it has.
    pub fn count(&self) -> usize
        ensures { result ≡ self.now.count }
    {
        self.count
    }

    // The entries of its records, in their order.
    pub fn entries(&self) -> &[u64]
        ensures { result.now ≡ take self.now.count self.now.order }
    {
        &self.order[..self.count.min(self.order.len())]
    }

    // The slot of the record that has the id.
    pub fn slot_of(&self, id: u32) -> Option<u16>
        ensures { result ≡ slot_led self.now id }
    {
        slot_of(self.ids, id)
    }

    // The record that has the id.
    pub fn record_of(&self, id: u32) -> Option<Record>
        ensures { result ≡ record_led self.now id }
    {
        let slot = self.slot_of(id)?;
        Some(records::record_at(self.slots, slot as usize))
    }

    // The slot of entry i of the order; that of entry `count` is the first that is free.
    fn slot_at(&self, i: usize) -> u16
        ensures { result ≡ slot_in (get_or self.now.order i 0) }
    {
        order::slot_at(self.order, i)
    }

    // Puts a record in a place of the others, in the first slot that is free. Inlined, so that the compiler knows how
    // long the lent arrays are.
    #[inline(always)]
    pub fn add(&mut self, place: usize, event: Record)
        ensures { self.new ≡ added place event self.old }
    {
        let count = self.count;
        let slot = self.slot_at(count);
        records::write_record(self.slots, slot as usize, event);
        order::insert(self.order, count, place, order::entry_of(event.start, slot));
        set_slot(self.ids, event.id, slot);
        self.count = one_more(self.order.len(), count);
    }

    // Takes the record in a place, which has the id, out.
    pub fn take_out(&mut self, place: usize, id: u32)
        ensures { self.new ≡ taken_out place id self.old }
    {
        take_out(self.order, self.ids, self.count, place, id);
        self.count = self.count.saturating_sub(1);
    }

    // Takes the record in place `from`, which has the id, out and puts a record in place `to` of the others, in its
    // slot. Where there is no such record or place, the order is what `move_entry` leaves, and the record goes to the
    // slot that it returns.
    #[tactic(auto, using(crate::proofs::OrderLaws::taken_length))]
    pub fn re_place(&mut self, from: usize, to: usize, id: u32, event: Record)
        ensures { self.new ≡ added to event (taken_out from id self.old) }
    {
        let entries = self.order.len();
        let slot = order::move_entry(self.order, self.count, from, to, event.start);
        records::write_record(self.slots, slot as usize, event);
        set_slot(self.ids, id, NO_SLOT);
        set_slot(self.ids, event.id, slot);
        self.count = one_more(entries, self.count.saturating_sub(1));
    }

    // Makes an index of the list's records, where no id has a slot yet.
    pub fn load(&mut self, list: &[u32], count: usize)
        ensures { self.new ≡ loaded list.now count (emptied self.old) }
    {
        order::number_slots(self.order);
        self.count = 0;
        for i in 0..count {
            self.add(i, records::record_at(list, i));
        }
    }

    // Writes its records to the front of the list, in their order.
    pub fn store(&self, list: &mut [u32])
        ensures { list.new ≡ stored list.old self.now self.now.count }
    {
        store(list, self.slots, self.order, self.count);
    }

    // Whether an event overlaps one of the two records beside a place of the others, by `overlaps_neighbour` of
    // `neighbours`. Inlined as that is.
    #[inline(always)]
    pub fn overlaps_neighbour(&self, own: usize, place: usize, event: Record) -> bool
        ensures { result ≡ overlaps_neighbour event self.now own place }
    {
        neighbours::overlaps_neighbour(self.slots, self.order, self.count, own, place, event)
    }
}
