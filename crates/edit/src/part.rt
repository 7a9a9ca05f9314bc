// A script of any length is run in parts, each with the UNDOs that are pending behind it (01, "Edit": each UNDO strikes
// the nearest earlier edit that is not yet struck).
ghost use Rattle.std.specs.Prelude.{◌≡◌, ◌*◌, ◌≤◌, T, length, take};
ghost use Rattle.eit.specs.Records.{lent_list};
ghost use Rattle.eit.specs.Sizes.{sizes_of};
ghost use Rattle.eit.specs.Sound.{sound};
ghost use Rattle.script.specs.Struck.{pending_before};
ghost use Rattle.edit_scan.specs.Commands.{commands_at};
ghost use Rattle.edit_scan.specs.Places.{place_limit};
ghost use Rattle.edit.specs.Run.{run_part};
ghost use Rattle.edit_answer.specs.Outcome.{outcome_of};

use crate::run;
use codec::pools::Pools;
use edit_answer::EditError;
use edit_scan::places::PLACES;
use edit_scan::{command, places, scan};
use eit::Caller;

// How many UNDOs are pending before k commands from `at` on, with so many behind them: `kept` counts the edits that are
// not yet struck, `over` the UNDOs that find nothing among them to strike; with no branch that the processor would have
// to guess.
fn pending_before(script: &[u8], at: usize, k: usize, undos: usize) -> usize
    requires { (k ≤ length (commands_at at script.now)) × (undos ≤ length script.now) }
    ensures { result ≡ pending_before undos (take k (commands_at at script.now)) }
{
    let mut over: usize = 0;
    let mut kept: usize = 0;
    let mut i = at;
    for _ in 0..k {
        let undo = (script[i] == command::UNDO) as usize;
        let unmet = (kept < undo) as usize;
        over += unmet;
        kept = kept + 1 + unmet - 2 * undo;
        i += 1 + command::operand_bytes(script[i]);
    }
    over + undos.saturating_sub(kept)
}

// The live edits among k commands from `at` on, with so many UNDOs pending behind them, on a list that is sound: those
// of the first half, then those of the second, until a half is short. What strikes in the first is counted by a pass
// over the second. `noted` is room for the places of a part's UNDOs.
pub fn run_part(
    list: &mut [u32],
    count: &mut usize,
    pools: &Pools<'_>,
    caller: Caller,
    script: &[u8],
    at: usize,
    k: usize,
    undos: usize,
    noted: &mut [u64],
) -> Result<(), EditError>
    requires { T (sound (sizes_of caller) pools.now (lent_list list.old count.old))
        × (k ≤ length (commands_at at script.now)) × (place_limit ≤ 64 * length noted.old) }
    ensures { run_part (sizes_of caller) pools.now (lent_list list.old count.old) undos k at script.now
        ≡ outcome_of result count.new list.new }
{
    if k <= undos {
        return Ok(());
    }
    if k <= PLACES {
        places::note_undos(script, at, k, noted);
        return run::run_noted(list, count, pools, caller, script, at, k, undos, noted);
    }
    let h = k / 2;
    let rest = k - h;
    let mid = scan::skip_commands(script, at, h);
    let before = pending_before(script, mid, rest, undos);
    run_part(list, count, pools, caller, script, at, h, before, noted)?;
    run_part(list, count, pools, caller, script, mid, rest, undos, noted)
}
