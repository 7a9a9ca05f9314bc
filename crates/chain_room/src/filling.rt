// Greedy packing as one pass (01, "Build, Read": "each section takes as many of the segment's next events as fit"): an
// event goes into the last section, or into a new one.
ghost use Rattle.std.specs.Prelude.{◌≡◌};
ghost use Rattle.packing.specs.OnePass.{added, filled};
ghost use Rattle.sections.specs.Section.{event_size};
ghost use Rattle.build_counts.specs.Between.{events_between};

use build_counts::cut;
use codec::pools::Pools;
use packing::Filling;

// One more event, of `size` bytes. None: it is not held.
#[tactic(auto, unfolding(packing::specs::OnePass::added))]
pub fn add(filling: Filling, size: usize, room: usize) -> Option<Filling>
    ensures { result ≡ added room filling size }
{
    if size <= filling.free {
        return Some(Filling {
            free: filling.free - size,
            ..filling
        });
    }
    if filling.more == 0 || room < size {
        return None;
    }
    Some(Filling {
        more: filling.more - 1,
        free: room - size,
    })
}

// The pass over the events from `from` to `end`. None: one of them, or of those before, is not held.
pub fn fill(
    list: &[u32],
    from: usize,
    end: usize,
    pools: &Pools<'_>,
    room: usize,
    before: Option<Filling>,
) -> Option<Filling>
    ensures { result ≡ filled event_size room before
        (events_between pools.now list.now from end) }
{
    let mut filling = before?;
    for at in from..end {
        filling = add(filling, cut::event_size(list, at, pools), room)?;
    }
    Some(filling)
}
