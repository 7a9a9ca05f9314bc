// Where a start stands among the records of a list.
ghost use Rattle.std.specs.Prelude.{◌≡◌, ◌+◌};
ghost use Rattle.eit.specs.Pools.{Pools};
ghost use Rattle.build_counts.specs.Between.{events_between};
ghost use Rattle.chain_room.specs.Places.{earlier, starts_first};

use list_records::records;

// The place behind the records from `from` on that start before `start`. The pools do not matter: only starts are
// looked at.
#[tactic(auto, using(crate::proofs::PlaceLaws::passes))]
pub fn skip_earlier(list: &[u32], from: usize, end: usize, start: u32) -> usize
    ensures { (pools : Pools) → result ≡ from + earlier start (events_between pools list.now from end) }
{
    for at in from..end {
        if start <= records::record_at(list, at).start {
            return at;
        }
    }
    from.max(end)
}

// Whether there is a record at `place`, and it starts just then.
#[tactic(auto, using(crate::proofs::PlaceLaws::first_none, crate::proofs::PlaceLaws::first_is))]
pub fn starts_at(list: &[u32], place: usize, end: usize, start: u32) -> bool
    ensures { (pools : Pools) → result ≡ starts_first start (events_between pools list.now place end) }
{
    place < end && records::record_at(list, place).start == start
}
