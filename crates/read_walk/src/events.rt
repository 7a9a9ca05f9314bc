// The events of a section (01, "The file of sections"): its event loop, split by the chain lengths.
ghost use Rattle.std.specs.Prelude.{◌≡◌, length};
ghost use Rattle.std.specs.Iterator.{at_most, YieldsFirstRef};
ghost use Rattle.sections.specs.Decode.{stated_event_size, event_loop};
ghost use Rattle.read_walk.specs.EventsLeft.{events_left};

use codec::fields;
use eit::limits::{CRC_SIZE, EVENT_OVERHEAD, HEADER_SIZE};

// How many bytes the event at the front of the bytes has, by its chain length.
fn stated_event_size(bytes: &[u8]) -> usize
    ensures { result ≡ stated_event_size bytes.now }
{
    EVENT_OVERHEAD + (fields::read_field(bytes, 10, 2) % 0x1000) as usize
}

// The bytes between a section's header and its CRC_32; none where they would be fewer.
pub fn event_loop(section: &[u8]) -> &[u8]
    ensures { result.now ≡ event_loop section.now }
{
    if section.len() < HEADER_SIZE + CRC_SIZE {
        return &section[0..0];
    }
    &section[HEADER_SIZE..section.len() - CRC_SIZE]
}

// A reader of the events that stand one behind the other in some bytes: it gives the bytes of each.
#[derive(Clone, Copy)]
pub struct EventReader<'a> {
    pub rest: &'a [u8],
}

impl<'a> Iterator for EventReader<'a> {
    type Item = &'a [u8];

    ghost next_gives = { YieldsFirstRef events_left };

    ghost remaining = { λ s. at_most (length s.rest.now) };

    #[tactic(auto, using(sections::proofs::Split::split_next, sections::proofs::Split::split_nil))]
    fn next(&mut self) -> Option<&'a [u8]> {
        if self.rest.is_empty() {
            return None;
        }
        let size = stated_event_size(self.rest).min(self.rest.len());
        let (event, rest) = self.rest.split_at(size);
        self.rest = rest;
        Some(event)
    }
}

// The events of an event loop.
pub fn events(event_loop: &[u8]) -> EventReader<'_>
    ensures { result.rest ≡ event_loop.entry }
{
    EventReader { rest: event_loop }
}
