// What Build refuses: a case for each cause of 01's table ("When a call says no").
#![tactic(auto)]

ghost use Rattle.std.proofs.Common.{rules};

use refusal::Refusal;

#[derive(Clone, Copy, Debug, PartialEq, Eq)]
pub enum BuildError {
    // 1: the base day is above 65,472.
    BaseDay,
    // 2: a version is above 31.
    Version,
    // 12: the list is unsound.
    Unsound,
    // 10: the lowest segment index that is unpackable.
    Unpackable(usize),
    // 11: the output is short; the bytes needed.
    OutputShort(usize),
}

impl Refusal for BuildError {
    ghost use Rattle.build_answer.specs.Outcome.{error_number, error_value};

    ghost number_by = { error_number };

    ghost value_by = { error_value };

    fn number(self) -> u32 {
        match self {
            BuildError::BaseDay => 1,
            BuildError::Version => 2,
            BuildError::Unsound => 12,
            BuildError::Unpackable(_) => 10,
            BuildError::OutputShort(_) => 11,
        }
    }

    fn value(self) -> usize {
        match self {
            BuildError::BaseDay | BuildError::Version | BuildError::Unsound => 0,
            BuildError::Unpackable(index) => index,
            BuildError::OutputShort(need) => need,
        }
    }

    ghost never_0 = { Prim.search rules };
}
