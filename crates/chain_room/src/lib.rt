// How much text still fits at a start (02, W-201). An unsound list comes first, and then a start at which nothing fits.
#![tactic(auto)]

ghost use Rattle.std.specs.Prelude.{◌≡◌, T};
ghost use Rattle.std.proofs.Common.{rules};
ghost use Rattle.eit.specs.Sizes.{sizes_of};
ghost use Rattle.eit.specs.Records.{lent_list};
ghost use Rattle.eit.specs.Sound.{sound, events_of};
ghost use Rattle.room.specs.ChainRoom.{length_at, chain_room};
ghost use Rattle.chain_room.specs.Outcome.{outcome_of};

use build_counts::count::room_of;
use build_counts::segment::end_of;
use codec::pools::Pools;
use codec_section::segment::segment_index;
use eit::limits::SEGMENT_SECONDS;
use eit::{Caller, Sizes, Time};
use refusal::Refusal;

mod filling;
mod longest;
mod places;

// Why the call is refused.
#[derive(Clone, Copy, Debug, PartialEq, Eq)]
pub enum RoomError {
    // 12: the list is unsound.
    Unsound,
}

impl Refusal for RoomError {
    ghost use Rattle.chain_room.specs.Outcome.{error_number, error_value};

    ghost number_by = { error_number };

    ghost value_by = { error_value };

    fn number(self) -> u32 {
        match self {
            RoomError::Unsound => 12,
        }
    }

    fn value(self) -> usize {
        0
    }

    ghost never_0 = { Prim.search rules };
}

// The length for a sound list. Its segment's events stand one behind the other; if the start is taken, the first event
// that is not earlier has it.
fn length_at(list: &[u32], count: usize, pools: &Pools<'_>, sizes: Sizes, start: u32) -> Option<u32>
    requires { T (sound sizes pools.now (lent_list list.now count)) }
    ensures { result
        ≡ length_at sizes
        (events_of pools.now (lent_list list.now count))
        start }
{
    if !Time::is_start(start) {
        return None;
    }
    let from = places::skip_earlier(list, 0, count, start / SEGMENT_SECONDS * SEGMENT_SECONDS);
    let end = end_of(list, from, count, segment_index(start));
    let place = places::skip_earlier(list, from, end, start);
    if places::starts_at(list, place, end, start) {
        return None;
    }
    longest::longest(list, from, place, end, pools, room_of(sizes))
}

// 02's call: number and length are those of the definition. No event fits where no length is given.
pub fn chain_room(
    caller: Caller,
    list: &[u32],
    count: usize,
    pools: &Pools<'_>,
    start: u32,
) -> Result<Option<u32>, RoomError>
    ensures { chain_room (sizes_of caller) pools.now
        (lent_list list.now count) start
        ≡ outcome_of result }
{
    let sizes = Sizes::from(caller);
    if !list_sound::is_sound(list, count, pools, sizes) {
        return Err(RoomError::Unsound);
    }
    Ok(length_at(list, count, pools, sizes, start))
}
