// Edit (01, "Edit"). Its refusals in their order: 12, 3 and 4 here, and for each edit 5, 9, 6, 30, 8 in `machine`.
// `run` carries the live edits out, `part` runs scripts of any length in parts.
#![tactic(auto)]

ghost use Rattle.std.specs.Prelude.{◌≡◌};
ghost use Rattle.eit.specs.Records.{lent_list};
ghost use Rattle.eit.specs.Sizes.{sizes_of};
ghost use Rattle.script.specs.Edit.{edit};
ghost use Rattle.edit_answer.specs.Outcome.{outcome_of};

use codec::pools::Pools;
use edit_answer::EditError;
use edit_scan::places::{PLACE_WORDS, PLACES};
use edit_scan::scan;
use eit::{Caller, Sizes};

mod machine;
mod part;
mod run;

// 01's Edit: number, value, count and every number of the list are those of the definition. A refusal leaves the count
// then held.
pub fn edit(
    caller: Caller,
    list: &mut [u32],
    count: &mut usize,
    pools: &Pools<'_>,
    script: &[u8],
) -> Result<(), EditError>
    ensures { edit (sizes_of caller) pools.now (lent_list list.old count.old) script.now
        ≡ outcome_of result count.new list.new }
{
    if !list_sound::is_sound(list, *count, pools, Sizes::from(caller)) {
        return Err(EditError::Unsound);
    }
    // Who lends no script asks for soundness alone: no set is cleared, and no index made.
    if script.is_empty() {
        return Ok(());
    }
    let mut noted = [0u64; PLACE_WORDS];
    let k = scan::scan(script, &mut noted)?;
    if k <= PLACES {
        return run::run_noted(list, count, pools, caller, script, 0, k, 0, &mut noted);
    }
    part::run_part(list, count, pools, caller, script, 0, k, 0, &mut noted)
}
