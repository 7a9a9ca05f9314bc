// The sections of each segment, counted in one pass (01, "Build, Read").
ghost use Rattle.std.specs.Prelude.{◌≡◌, ◌==◌, position};
ghost use Rattle.eit.specs.Sizes.{room};
ghost use Rattle.eit.specs.Records.{lent_list};
ghost use Rattle.build_counts.specs.Between.{events_between};
ghost use Rattle.build_counts.specs.Counting.{counted_of, packed_of};

use crate::{cut, segment};
use codec::pools::Pools;
use eit::Sizes;
use eit::limits::{SECTION_OVERHEAD, SEGMENT_SECTIONS_MAX, SEGMENTS};

// The sections of a segment, 255 if it is unpackable, and their bytes; of an unpackable one those of its first eight.
#[derive(Clone, Copy)]
pub struct Packed {
    pub sections: u8,
    pub bytes: usize,
}

// What Build asks of a sound list before it writes: Plan's count of each segment; the lowest segment that is
// unpackable; and the bytes that the file needs, which mean nothing if one is.
#[derive(Clone, Copy)]
pub struct Counted {
    pub counts: [u8; SEGMENTS],
    pub lowest: Option<usize>,
    pub need: usize,
}

// Plan's entry for an unpackable segment: document 01's number (`plan`).
const UNPACKABLE: u8 = 255;

// The bytes that events have in a section.
pub fn room_of(sizes: Sizes) -> u16
    ensures { result ≡ room sizes }
{
    sizes.section_limit.saturating_sub(SECTION_OVERHEAD as u16)
}

// The sections of the events from `from` to `end`, which are those of a segment.
fn count_segment(list: &[u32], from: usize, end: usize, pools: &Pools<'_>, room: u16) -> Packed
    ensures { result ≡ packed_of room
        (events_between pools.now list.now from end) }
{
    if end <= from {
        return Packed {
            sections: 1,
            bytes: SECTION_OVERHEAD,
        };
    }
    let mut bytes = 0;
    let mut at = from;
    for sections in 0..SEGMENT_SECTIONS_MAX as u8 {
        let next = cut::next_cut(list, at, end, pools, room as usize);
        bytes += SECTION_OVERHEAD + next.bytes;
        at = next.to;
        if end <= at {
            return Packed {
                sections: sections + 1,
                bytes,
            };
        }
    }
    Packed {
        sections: UNPACKABLE,
        bytes,
    }
}

// The lowest segment that is unpackable.
fn lowest_full(counts: &[u8]) -> Option<usize>
    ensures { result ≡ position (λ count. count == 255) counts.now }
{
    counts.iter().position(|count| *count == UNPACKABLE)
}

// What Build asks of a list: nothing of an unsound one. The segments with events stand one behind the other in a sound
// list.
pub fn count_sections(
    list: &[u32],
    count: usize,
    pools: &Pools<'_>,
    sizes: Sizes,
) -> Option<Counted>
    ensures { result
        ≡ counted_of sizes pools.now (lent_list list.now count) }
{
    if !list_sound::is_sound(list, count, pools, sizes) {
        return None;
    }
    let room = room_of(sizes);
    let mut counts = [0u8; SEGMENTS];
    let mut need = 0;
    let mut from = 0;
    for index in 0..SEGMENTS {
        if segment::is_inside(list, from, count, index) {
            let end = segment::end_of(list, from, count, index);
            let packed = count_segment(list, from, end, pools, room);
            counts[index] = packed.sections;
            need += packed.bytes;
            from = end;
        }
    }
    let lowest = lowest_full(&counts);
    Some(Counted {
        counts,
        lowest,
        need,
    })
}
