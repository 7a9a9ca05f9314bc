// Which edits of a part of a script UNDO leaves live, by their places 0, 1, .. among its commands (01, "Edit": each
// UNDO strikes the nearest earlier edit that is not yet struck). A set of places is one of numbers (`codec::seen`).
ghost use Rattle.std.specs.Prelude.{◌≡◌, take};
ghost use Rattle.edit_scan.specs.Commands.{commands_at};
ghost use Rattle.edit_scan.specs.Places.{with_place, undos_noted, live_marked};

use crate::command;
use codec::seen;

// Places that Edit's set has room for, and so the most commands of a part that is not halved; and its words of 64.
pub const PLACES: usize = 262_144;

pub const PLACE_WORDS: usize = 4_096;

// Puts a place into a set or takes it out, whatever it was, with no branch that the processor would have to guess; a
// place for which there is no word changes nothing.
pub fn set_place(places: &mut [u64], place: usize, is_in: bool)
    ensures { places.new ≡ with_place places.old place is_in }
{
    let k = place / 64;
    if k < places.len() {
        let bit = place % 64;
        places[k] = (places[k] & !(1 << bit)) | ((is_in as u64) << bit);
    }
}

// Notes for each of the first k whole commands from `at` on, or as many as there are, whether it is an UNDO. The next
// offset, for which the next turn waits, comes before the set is written.
pub fn note_undos(script: &[u8], at: usize, k: usize, places: &mut [u64])
    ensures { places.new ≡ undos_noted places.old 0 (take k (commands_at at script.now)) }
{
    let mut i = at;
    for place in 0..k {
        let Some(code) = command::code_at(script, i) else {
            return;
        };
        i += 1 + command::operand_bytes(code);
        set_place(places, place, code == command::UNDO);
    }
}

// Makes the places of UNDOs among k commands those of the live edits, from the last to the first: an UNDO is pending
// until an edit before it is struck. It counts as 1 and an edit as 0, so that the processor has no branch to guess.
pub fn mark_live(places: &mut [u64], k: u32, undos: u32)
    ensures { places.new ≡ live_marked places.old undos k }
{
    let mut pending = undos as u64;
    for place in (0..k).rev() {
        let undo = seen::is_seen(places, place) as u64;
        let is_live = pending + undo == 0;
        set_place(places, place as usize, is_live);
        pending = pending + 2 * undo + is_live as u64 - 1;
    }
}
