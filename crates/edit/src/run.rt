// The live edits of a part of a script are carried out in order (01, "Edit"), on an index that is made from the list
// and written back to it; a refusal leaves the list as the earlier edits made it.
ghost use Rattle.std.specs.Prelude.{◌≡◌, ℕ, ◌*◌, ◌≤◌, T, length, take};
ghost use Rattle.eit.specs.Records.{lent_list, record_size};
ghost use Rattle.eit.specs.Sizes.{sizes_of};
ghost use Rattle.eit.specs.Sound.{sound};
ghost use Rattle.edit_scan.specs.Commands.{commands_at};
ghost use Rattle.edit_scan.specs.Places.{place_limit, UndoPlaces, LivePlaces};
ghost use Rattle.edit.specs.Run.{run_part};
ghost use Rattle.edit_answer.specs.Outcome.{outcome_of};
ghost use Rattle.edit_index.specs.Index.{Holds, indexed_numbers, indexed_list};

use crate::machine;
use codec::pools::Pools;
use codec::seen;
use edit_answer::EditError;
use edit_index::index::{IDS, Index, NO_SLOT, SLOTS};
use edit_scan::{command, places};
use eit::Caller;
use list_records::records::RECORD_SIZE;

// The live edits among k commands from `at` on, by their places, on an index that stands for a sound list; it ends
// where one is refused.
fn run_indexed(
    list: &mut [u32],
    index: &mut Index<'_>,
    pools: &Pools<'_>,
    caller: Caller,
    script: &[u8],
    at: usize,
    k: usize,
    live_places: &[u64],
) -> Result<(), EditError>
    requires { T (sound (sizes_of caller) pools.now (indexed_list list.old index.old))
        × (k ≤ length (commands_at at script.now)) × (k ≤ place_limit)
        × Holds index.old × (index.old.count * record_size ≤ length list.old) }
    ensures { ((undos : ℕ) → LivePlaces live_places.now undos (take k (commands_at at script.now))
        → run_part (sizes_of caller) pools.now (indexed_list list.old index.old) undos k at script.now
        ≡ outcome_of result index.new.count (indexed_numbers list.new index.new))
        × (index.new.count * record_size ≤ length list.new) × (index.new.count ≤ length index.new.order) }
{
    let mut i = at;
    for place in 0..k {
        if seen::is_seen(live_places, place as u32) {
            machine::carry_out(list, index, pools, caller, script, i)?;
        }
        i += 1 + command::operand_bytes(script[i]);
    }
    Ok(())
}

// The edits of k commands from `at` on, with so many UNDOs pending behind them, on a list that is sound; `noted` has
// the places of the UNDOs among them, and is left with those of the live edits. The index is made here, in place.
pub fn run_noted(
    list: &mut [u32],
    count: &mut usize,
    pools: &Pools<'_>,
    caller: Caller,
    script: &[u8],
    at: usize,
    k: usize,
    undos: usize,
    noted: &mut [u64],
) -> Result<(), EditError>
    requires { T (sound (sizes_of caller) pools.now (lent_list list.old count.old))
        × (k ≤ length (commands_at at script.now)) × (k ≤ place_limit) × (undos ≤ place_limit)
        × (k ≤ 64 * length noted.old) × UndoPlaces noted.old (take k (commands_at at script.now)) }
    ensures { run_part (sizes_of caller) pools.now (lent_list list.old count.old) undos k at script.now
        ≡ outcome_of result count.new list.new }
{
    places::mark_live(noted, k as u32, undos as u32);
    let mut slots = [0u32; SLOTS * RECORD_SIZE];
    let mut order = [0u64; SLOTS];
    let mut ids = [NO_SLOT; IDS];
    let mut index = Index {
        slots: &mut slots,
        order: &mut order,
        ids: &mut ids,
        count: 0,
    };
    index.load(list, *count);
    let ran = run_indexed(list, &mut index, pools, caller, script, at, k, noted);
    index.store(list);
    *count = index.count();
    ran
}
