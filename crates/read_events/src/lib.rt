// A section's event loop: each event, and each beside all that came before (01, "The file of sections").
#![tactic(auto)]

ghost use Rattle.std.specs.Prelude.{◌≡◌, ◌&&◌, not, [], leb};
ghost use Rattle.sections.specs.Decode.{stated_event_size};
ghost use Rattle.sections.specs.Split.{split_by};
ghost use Rattle.sections.specs.EventTests.{is_in_segment, is_filled_or_alone};
ghost use Rattle.codec.specs.Seen.{is_seen};
ghost use Rattle.codec_section.specs.HeaderRead.{held_header};
ghost use Rattle.read_events.specs.EventPass.{checked_events, pass_of};

use codec::seen;
use codec_section::header::SectionHeader;
use codec_section::{event, segment};
use eit::Record;
use read_walk::events;

// The events of a loop that passed: how many, and the least start that the next event may have.
#[derive(Clone, Copy)]
pub struct EventsPassed {
    pub count: usize,
    pub least: u64,
}

// An event starts in its section's segment.
fn is_in_segment(header: SectionHeader, start: u32) -> bool
    ensures { result ≡ is_in_segment (held_header header) start }
{
    let index = segment::segment_index(start);
    segment::table_of(index) == header.table_id as usize
        && segment::first_section(index) == segment::first_of(header.section_number)
}

// A section without events is alone in its segment: S = G = s0.
fn is_alone(header: SectionHeader) -> bool
    ensures { result ≡ is_filled_or_alone (held_header header) [] }
{
    let first = segment::first_of(header.section_number);
    header.section_number as usize == first && header.segment_last_section_number as usize == first
}

// An event that does not start before `least`, and whose id is not in the set.
fn is_new(event: Record, least: u64, seen: &[u64]) -> bool
    ensures { result ≡ (leb least event.start && not (is_seen seen.now event.id)) }
{
    least <= event.start as u64 && !seen::is_seen(seen, event.id)
}

// 24: every event of the loop passes, and follows those before, whose ids are in the set and which end by `least`. The
// ids of the events that passed are added to the set. An error has the events that passed before the rule was broken.
pub fn check_events(
    events: &[u8],
    header: SectionHeader,
    base_day: u32,
    least: u64,
    seen: &mut [u64],
) -> Result<EventsPassed, EventsPassed>
    ensures { pass_of result seen.new
        ≡ checked_events base_day (held_header header) least seen.old
        (split_by stated_event_size events.now) }
{
    let mut passed = EventsPassed { count: 0, least };
    for bytes in events::events(events) {
        let Some(event) = event::read_event(bytes, base_day) else {
            return Err(passed);
        };
        if !is_in_segment(header, event.start) || !is_new(event, passed.least, seen) {
            return Err(passed);
        }
        seen::add_seen(seen, event.id);
        passed = EventsPassed {
            count: passed.count + 1,
            least: eit::least_behind(event),
        };
    }
    if passed.count == 0 && !is_alone(header) {
        return Err(passed);
    }
    Ok(passed)
}
