// How many events a section has (01, "The file of sections").
ghost use Rattle.std.specs.Prelude.{◌≡◌, length};
ghost use Rattle.sections.specs.Decode.{split_events};

use read_walk::events;

#[tactic(auto, unfolding(sections::specs::Decode::split_events))]
pub fn count_events(section: &[u8]) -> usize
    ensures { result ≡ length (split_events section.now) }
{
    events::events(events::event_loop(section)).count()
}
