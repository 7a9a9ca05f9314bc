// 01's term: sound ("Event record and sound list").
#![tactic(auto)]

ghost use Rattle.std.specs.Prelude.{◌≡◌};
ghost use Rattle.eit.specs.Records.{lent_list};
ghost use Rattle.eit.specs.Sound.{in_range, sound};

use codec::pools::Pools;
use codec::seen;
use eit::limits::{ID_MAX, ID_WORDS, MARKS_MAX};
use eit::{Record, Sizes, Time};
use list_records::records;
use list_records::records::RECORD_SIZE;

// Values are in range.
pub fn is_in_range(event: Record) -> bool
    ensures { result ≡ in_range event }
{
    event.id <= ID_MAX
        && Time::is_start(event.start)
        && Time::is_duration(event.duration)
        && event.marks <= MARKS_MAX
}

// Whether the list is sound, in one pass: the next event may start from `least` on, and ids are kept in a set.
pub fn is_sound(list: &[u32], count: usize, pools: &Pools<'_>, sizes: Sizes) -> bool
    ensures { result ≡ sound sizes pools.now (lent_list list.now count) }
{
    if sizes.event_limit < count || list.len() / RECORD_SIZE < count {
        return false;
    }
    let mut seen = [0u64; ID_WORDS];
    let mut least = 0;
    for i in 0..count {
        let r = records::record_at(list, i);
        if !is_in_range(r)
            || !pools.has_chain(r)
            || (r.start as u64) < least
            || seen::is_seen(&seen, r.id)
        {
            return false;
        }
        seen::add_seen(&mut seen, r.id);
        least = eit::least_behind(r);
    }
    true
}
