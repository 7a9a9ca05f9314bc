// The search for the place of a start (02, W-203), from the front of an order. It reads no entry behind the first whose
// start is later.
ghost use Rattle.std.specs.Prelude.{◌≡◌, leb, position};
ghost use Rattle.eit.specs.Placing.{placing};
ghost use Rattle.edit_index.specs.Order.{starts_in};
ghost use Rattle.edit_index.specs.Search.{passed_of, Passed};

use crate::order::SLOT_NUMBERS;
use eit::Place;

// Entries for which the search tests once whether it has come to the end.
const STRIDE: usize = 16;

// The places of two starts.
#[derive(Clone, Copy)]
pub struct Places {
    pub one: Place,
    pub other: Place,
}

// The first entry that is not below `least`.
fn first_from(entries: &[u64], least: u64) -> Option<usize>
    ensures { result ≡ position (λ entry. leb least entry) entries.now }
{
    entries.iter().position(|entry| least <= *entry)
}

// How many entries stand before the first whose start is later.
fn passed_in(entries: &[u64], start: u32) -> usize
    ensures { result ≡ passed_of start entries.now }
{
    first_from(entries, (start as u64 + 1) * SLOT_NUMBERS).unwrap_or(entries.len())
}

// The same, some entries at a time, so that the compiler lays out the looks at them one behind the other.
fn passed_by_strides(entries: &[u64], start: u32) -> usize
    ensures { result ≡ passed_of start entries.now }
{
    let mut i = 0;
    while STRIDE <= entries.len() - i {
        let passed = passed_in(&entries[i..i + STRIDE], start);
        if passed < STRIDE {
            return i + passed;
        }
        i += STRIDE;
    }
    i + passed_in(&entries[i..], start)
}

// The place of a start among entries of which those before `from` are not later.
fn place_from(entries: &[u64], from: usize, start: u32) -> Place
    requires { Passed start entries.now from }
    ensures { result ≡ placing start (starts_in entries.now) }
{
    let place = from + passed_by_strides(&entries[from..], start);
    Place {
        place,
        looked: entries.len().min(place + 1),
    }
}

// The place of a start among entries.
pub fn place_of(entries: &[u64], start: u32) -> Place
    ensures { result ≡ placing start (starts_in entries.now) }
{
    place_from(entries, 0, start)
}

// The places of two starts: what the search for the earlier one has passed is not later than the other.
pub fn places_of(entries: &[u64], one: u32, other: u32) -> Places
    ensures { result ≡ record {
      one = placing one (starts_in entries.now);
      other = placing other (starts_in entries.now);
    } }
{
    if one <= other {
        let earlier = place_of(entries, one);
        return Places {
            one: earlier,
            other: place_from(entries, earlier.place, other),
        };
    }
    let earlier = place_of(entries, other);
    Places {
        one: place_from(entries, earlier.place, one),
        other: earlier,
    }
}
