// The events that one section takes (01, "Build, Read": "each section takes as many of the segment's next events as
// fit").
ghost use Rattle.std.specs.Prelude.{◌≡◌, ◌*◌, drop};
ghost use Rattle.eit.specs.Records.{record_size, front_record};
ghost use Rattle.eit.specs.Events.{event_of};
ghost use Rattle.sections.specs.Section.{event_size};
ghost use Rattle.build_counts.specs.Between.{events_between};
ghost use Rattle.build_counts.specs.Cutting.{cut_of};

use codec::pools::Pools;
use eit::limits::EVENT_OVERHEAD;
use list_records::records;

// The place behind the events that a section takes, and the bytes of these events.
#[derive(Clone, Copy)]
pub struct Cut {
    pub to: usize,
    pub bytes: usize,
}

// The bytes of event i.
pub fn event_size(list: &[u32], i: usize, pools: &Pools<'_>) -> usize
    ensures { result
        ≡ event_size
        (event_of pools.now
        (front_record (drop (i * record_size) list.now))) }
{
    let r = records::record_at(list, i);
    EVENT_OVERHEAD + pools.choose(r.marks, r.offset, r.chain_length).len()
}

// As many of the events from `from` to `end` as fit in `room` bytes.
pub fn next_cut(list: &[u32], from: usize, end: usize, pools: &Pools<'_>, room: usize) -> Cut
    ensures { result ≡ cut_of from room
        (events_between pools.now list.now from end) }
{
    let mut bytes = 0;
    for to in from..end {
        let size = event_size(list, to, pools);
        if room - bytes < size {
            return Cut { to, bytes };
        }
        bytes += size;
    }
    Cut {
        to: end.max(from),
        bytes,
    }
}
