// The passes over a script that come before any edit (01, "When a call says no": 3 over the script, 4 over the script),
// and a pass that skips commands.
ghost use Rattle.std.specs.Prelude.{◌≡◌};
ghost use Rattle.script.specs.Form.{form_of};
ghost use Rattle.edit_scan.specs.Commands.{form_found, nothing_found, scan_found, commands_at, offset_behind};
ghost use Rattle.edit_scan.specs.Places.{striking_noted};

use crate::{command, places};

// What is wrong with a script, and the offset of the command where it is.
#[derive(Clone, Copy, Debug, PartialEq, Eq)]
pub enum ScriptError {
    // 3: an unknown command or a truncated operand; the first.
    Broken(usize),
    // 4: an UNDO with nothing to strike; the first.
    NothingToUndo(usize),
}

// How many commands a script has: it is whole if its whole commands reach its end.
pub fn form_of(script: &[u8]) -> Result<usize, ScriptError>
    ensures { result ≡ form_found (form_of script.now) }
{
    let mut count: usize = 0;
    let mut at = 0;
    while let Some(code) = command::code_at(script, at) {
        count += 1;
        at += 1 + command::operand_bytes(code);
    }
    if script.len() <= at {
        return Ok(count);
    }
    Err(ScriptError::Broken(at))
}

// 3 over the script, and else 4 at an UNDO.
fn unless_broken(script: &[u8], undo_at: usize) -> ScriptError
    ensures { result ≡ nothing_found undo_at (form_of script.now) }
{
    match form_of(script) {
        Ok(_) => ScriptError::NothingToUndo(undo_at),
        Err(broken) => broken,
    }
}

// How many commands a script has, if each UNDO has something to strike. Notes for each command whether it is an UNDO:
// `kept` counts the edits that are not yet struck, one more for an edit and one less for an UNDO, with no branch
// between the two that the processor would have to guess. The next offset, for which the next turn waits, comes before
// the set is written.
pub fn scan(script: &[u8], places: &mut [u64]) -> Result<usize, ScriptError>
    ensures { (result ≡ scan_found (form_of script.now))
        × (places.new ≡ striking_noted 0 places.old 0 (commands_at 0 script.now)) }
{
    let mut count: usize = 0;
    let mut kept: usize = 0;
    let mut at = 0;
    while let Some(code) = command::code_at(script, at) {
        let is_undo = code == command::UNDO;
        let undo = is_undo as usize;
        if kept < undo {
            return Err(unless_broken(script, at));
        }
        kept = kept + 1 - 2 * undo;
        at += 1 + command::operand_bytes(code);
        places::set_place(places, count, is_undo);
        count += 1;
    }
    if at < script.len() {
        return Err(ScriptError::Broken(at));
    }
    Ok(count)
}

// The offset behind k whole commands from `at` on, or behind as many as there are.
pub fn skip_commands(script: &[u8], at: usize, k: usize) -> usize
    ensures { result ≡ offset_behind k at script.now }
{
    let mut i = at;
    for _ in 0..k {
        let Some(code) = command::code_at(script, i) else {
            return i;
        };
        i += 1 + command::operand_bytes(code);
    }
    i
}
