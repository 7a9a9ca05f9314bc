// What Edit says: a case for each cause of 01's table ("When a call says no") and of 02's requests, with the offset of
// the command's byte where it returns one.
#![tactic(auto)]

ghost use Rattle.std.specs.Prelude.{◌≡◌};
ghost use Rattle.std.proofs.Common.{rules};
ghost use Rattle.edit_answer.specs.Outcome.{outcome_value};

use edit_scan::scan::ScriptError;
use refusal::Refusal;

#[derive(Clone, Copy, Debug, PartialEq, Eq)]
pub enum EditError {
    // 12: the list is unsound.
    Unsound,
    // 3 and 4: the script itself.
    Script(ScriptError),
    // 5: a value out of range.
    OutOfRange(usize),
    // 6: the id is present (PUT), or absent (WITHDRAW, MOVE).
    WrongId(usize),
    // 8: the list is at its limit.
    ListFull(usize),
    // 9: the part is outside its pool, or no chain.
    NoChain(usize),
    // 30: the event would overlap another one.
    Overlap(usize),
}

impl From<ScriptError> for EditError {
    ghost use Rattle.edit_answer.specs.declared.EditError.TheVariants.{Script};

    ghost from_gives = { λ error result. result ≡ Script error };

    fn from(error: ScriptError) -> EditError {
        EditError::Script(error)
    }
}

impl Refusal for EditError {
    ghost use Rattle.edit_answer.specs.Outcome.{error_number, error_value};

    ghost number_by = { error_number };

    ghost value_by = { error_value };

    fn number(self) -> u32 {
        match self {
            EditError::Unsound => 12,
            EditError::Script(ScriptError::Broken(_)) => 3,
            EditError::Script(ScriptError::NothingToUndo(_)) => 4,
            EditError::OutOfRange(_) => 5,
            EditError::WrongId(_) => 6,
            EditError::ListFull(_) => 8,
            EditError::NoChain(_) => 9,
            EditError::Overlap(_) => 30,
        }
    }

    fn value(self) -> usize {
        match self {
            EditError::Unsound => 0,
            EditError::Script(ScriptError::Broken(at) | ScriptError::NothingToUndo(at))
            | EditError::OutOfRange(at)
            | EditError::WrongId(at)
            | EditError::ListFull(at)
            | EditError::NoChain(at)
            | EditError::Overlap(at) => at,
        }
    }

    ghost never_0 = { Prim.search rules };
}

// The papers' value of an outcome, with the count then held: on success that count.
pub fn value_of(outcome: Result<(), EditError>, count: usize) -> usize
    ensures { result ≡ outcome_value count outcome }
{
    match outcome {
        Ok(()) => count,
        Err(error) => error.value(),
    }
}
