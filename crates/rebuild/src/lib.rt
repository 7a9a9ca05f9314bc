// Rebuild (02, W-208): the new list's file under the previous service, stream and network, with a version for each
// table that tells receivers whether the table has changed.
#![tactic(auto)]

ghost use Rattle.std.specs.Prelude.{◌≡◌};
ghost use Rattle.std.proofs.Common.{rules};
ghost use Rattle.eit.specs.Sizes.{sizes_of};
ghost use Rattle.eit.specs.Records.{lent_list};
ghost use Rattle.schedule.specs.Rebuild.{rebuild};
ghost use Rattle.rebuild.specs.Outcome.{outcome_of};

use build_answer::BuildError;
use codec::pools::Pools;
use eit::{Caller, Identity};
use read_answer::ReadError;
use refusal::Refusal;

mod tables;

// Why Rebuild is refused.
#[derive(Clone, Copy, Debug, PartialEq, Eq)]
pub enum RebuildError {
    // Read refuses the previous file.
    Previous(ReadError),
    // Build refuses the new list.
    Build(BuildError),
}

impl From<ReadError> for RebuildError {
    ghost use Rattle.rebuild.specs.declared.RebuildError.TheVariants.{Previous};

    ghost from_gives = { λ error result. result ≡ Previous error };

    fn from(error: ReadError) -> RebuildError {
        RebuildError::Previous(error)
    }
}

impl From<BuildError> for RebuildError {
    ghost use Rattle.rebuild.specs.declared.RebuildError.TheVariants.{Build};

    ghost from_gives = { λ error result. result ≡ Build error };

    fn from(error: BuildError) -> RebuildError {
        RebuildError::Build(error)
    }
}

impl Refusal for RebuildError {
    ghost use Rattle.rebuild.specs.Outcome.{error_number, error_value};

    ghost number_by = { error_number };

    ghost value_by = { error_value };

    fn number(self) -> u32 {
        match self {
            RebuildError::Previous(error) => error.number(),
            RebuildError::Build(error) => error.number(),
        }
    }

    fn value(self) -> usize {
        match self {
            RebuildError::Previous(error) => error.value(),
            RebuildError::Build(error) => error.value(),
        }
    }

    ghost never_0 = { Prim.search rules };
}

// 02's further call: number, value and every byte of the output are those of the definition; success is the file's
// length. The new list is built under the previous versions first: then a table that is the same, version and CRC
// aside, is the same in every byte. Where one differs, the file is built once more under the next versions.
pub fn rebuild(
    caller: Caller,
    previous: &[u8],
    previous_base_day: u32,
    list: &[u32],
    count: usize,
    pools: &Pools<'_>,
    base_day: u32,
    out: &mut [u8],
) -> Result<usize, RebuildError>
    ensures { rebuild (sizes_of caller) previous.now previous_base_day
        pools.now (lent_list list.now count) base_day
        out.old
        ≡ outcome_of result out.new }
{
    // The proof asks that the pools are bytes, which it knows of a value whose fields are looked at.
    let _ = &pools.day;
    let identity = read_check::check(caller, previous, previous_base_day)?.identity;
    let size = build::build(caller, list, count, pools, base_day, identity, out)?;
    let next = tables::next_versions(previous, &out[..size], identity.versions);
    if next == identity.versions {
        return Ok(size);
    }
    let changed = Identity {
        versions: next,
        ..identity
    };
    Ok(build::build(caller, list, count, pools, base_day, changed, out)?)
}
