// The segments of a list's events (01, "The file of sections": start ÷ 10,800, rounded down, is the segment index).
ghost use Rattle.std.specs.Prelude.{◌≡◌, ◌+◌, ◌*◌, drop};
ghost use Rattle.eit.specs.Pools.{Pools};
ghost use Rattle.eit.specs.Records.{record_size, front_record, records_in};
ghost use Rattle.eit.specs.Events.{events_in};
ghost use Rattle.sections.specs.Segment.{segment_index};
ghost use Rattle.schedule.specs.Extent.{last_index};
ghost use Rattle.build_counts.specs.Between.{events_between, leading, is_next_inside};

use codec_section::segment;
use eit::limits::TABLE_SEGMENTS;
use list_records::records;

// The segment index of record i.
fn segment_of_record(list: &[u32], i: usize) -> usize
    ensures { result ≡ segment_index (front_record (drop (i * record_size) list.now)).start }
{
    segment::segment_index(records::record_at(list, i).start)
}

// The place behind the events from `from` on that start in the segment. The pools do not matter: only starts are looked
// at.
pub fn end_of(list: &[u32], from: usize, count: usize, index: usize) -> usize
    ensures { (pools : Pools) → result ≡ from + leading index (events_between pools list.now from count) }
{
    for end in from..count {
        if segment_of_record(list, end) != index {
            return end;
        }
    }
    count.max(from)
}

// Whether the segment is inside the range of its table, the events from `from` on being those that start in it or
// later.
pub fn is_inside(list: &[u32], from: usize, count: usize, index: usize) -> bool
    ensures { (pools : Pools) → result ≡ is_next_inside index (events_between pools list.now from count) }
{
    if count <= from {
        return index == 0;
    }
    index % TABLE_SEGMENTS == 0
        || segment_of_record(list, from) / TABLE_SEGMENTS == index / TABLE_SEGMENTS
}

// The segment index of the last event; of none, 0.
pub fn last_index(list: &[u32], count: usize) -> usize
    ensures { (pools : Pools) → result ≡ last_index 0 (events_in pools (records_in count list.now)) }
{
    if count == 0 {
        return 0;
    }
    segment_of_record(list, count - 1)
}
