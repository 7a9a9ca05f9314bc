// The longest chain of one more event, by halving: a shorter one fits where a longer one does.
ghost use Rattle.std.specs.Prelude.{◌≡◌, ◌-◌};
ghost use Rattle.sections.specs.Section.{event_overhead};
ghost use Rattle.room.specs.ChainRoom.{largest, never_one};
ghost use Rattle.build_counts.specs.Between.{events_between};
ghost use Rattle.chain_room.specs.Trial.{holds, last_of, longest_between};

use crate::filling;
use codec::pools::Pools;
use eit::limits::{EVENT_OVERHEAD, SEGMENT_SECTIONS_MAX};
use packing::Filling;

// The longest chain for which a section has room.
fn chain_max(room: u16) -> u16
    ensures { result ≡ room - event_overhead }
{
    room.saturating_sub(EVENT_OVERHEAD as u16)
}

// How many lengths, from 0 on, the chain of one more event can have: the events before it are packed in `before`, and
// those from `place` to `end` follow it. Some dozen lengths are tried.
fn count_lengths(
    list: &[u32],
    place: usize,
    end: usize,
    pools: &Pools<'_>,
    room: u16,
    before: Filling,
) -> u16
    ensures { largest
        (holds room (Some before)
        (events_between pools.now list.now place end))
        (room - event_overhead)
        ≡ last_of result }
{
    // Halved here: `partition_point` is a slice's, and these lengths are in none.
    let mut low = 0u16;
    let mut high = chain_max(room) + 1;
    while low < high {
        let tried = low + (high - low) / 2;
        let with = filling::add(before, EVENT_OVERHEAD + tried as usize, room as usize);
        if filling::fill(list, place, end, pools, room as usize, with).is_some() {
            low = tried + 1;
        } else {
            high = tried;
        }
    }
    low
}

// The length where so many fit. 1 is a length that no chain has, and 0 is given then.
fn length_of(lengths: u16) -> Option<u32>
    ensures { result ≡ never_one (last_of lengths) }
{
    match lengths {
        0 => None,
        2 => Some(0),
        _ => Some(lengths as u32 - 1),
    }
}

// The length for an event at `place` among those from `from` to `end`, which are its segment's.
pub fn longest(
    list: &[u32],
    from: usize,
    place: usize,
    end: usize,
    pools: &Pools<'_>,
    room: u16,
) -> Option<u32>
    ensures { let lent = events_between pools.now list.now in
        result ≡ never_one (longest_between room (lent from place) (lent place end)) }
{
    let begun = Filling {
        more: SEGMENT_SECTIONS_MAX - 1,
        free: room as usize,
    };
    let before = filling::fill(list, from, place, pools, room as usize, Some(begun))?;
    length_of(count_lengths(list, place, end, pools, room, before))
}
