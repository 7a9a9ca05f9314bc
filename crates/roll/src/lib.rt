// The roll to the next base day (02, W-205), in place. Its refusals in their order: 31, 12.
#![tactic(auto)]

ghost use Rattle.std.specs.Prelude.{◌≡◌};
ghost use Rattle.std.proofs.Common.{rules};
ghost use Rattle.eit.specs.Sizes.{sizes_of};
ghost use Rattle.eit.specs.Records.{lent_list};
ghost use Rattle.window.specs.Roll.{roll};
ghost use Rattle.roll.specs.Outcome.{outcome_of};

use codec::pools::Pools;
use eit::limits::BASE_DAY_MAX;
use eit::{Caller, Sizes};
use list_records::records::RECORD_SIZE;
use refusal::Refusal;

mod next_day;

// Why a roll is refused. List and base day then stay as they are.
#[derive(Clone, Copy, Debug, PartialEq, Eq)]
pub enum RollError {
    // 31: no base day comes after this one.
    LastBaseDay,
    // 12: the list is unsound.
    Unsound,
}

// The count and the base day of the list of the next base day.
#[derive(Clone, Copy, Debug, PartialEq, Eq)]
pub struct Rolled {
    pub count: usize,
    pub base_day: u32,
}

impl Refusal for RollError {
    ghost use Rattle.roll.specs.Outcome.{error_number, error_value};

    ghost number_by = { error_number };

    ghost value_by = { error_value };

    fn number(self) -> u32 {
        match self {
            RollError::LastBaseDay => 31,
            RollError::Unsound => 12,
        }
    }

    fn value(self) -> usize {
        0
    }

    ghost never_0 = { Prim.search rules };
}

// 02's roll: number, value, count, base day and every number of the list are those of the definition.
#[tactic(auto, using(crate::proofs::RollLaws::stay_few, list_sound::proofs::ForwardLaws::sound_short))]
pub fn roll(
    caller: Caller,
    list: &mut [u32],
    count: usize,
    pools: &Pools<'_>,
    base_day: u32,
) -> Result<Rolled, RollError>
    ensures { roll (sizes_of caller) pools.now
        (lent_list list.old count) base_day
        ≡ outcome_of count base_day result list.new }
{
    if BASE_DAY_MAX <= base_day {
        return Err(RollError::LastBaseDay);
    }
    if !list_sound::is_sound(list, count, pools, Sizes::from(caller)) {
        return Err(RollError::Unsound);
    }
    let kept = next_day::keep_later(list, count);
    list[kept * RECORD_SIZE..count * RECORD_SIZE].fill(0);
    Ok(Rolled {
        count: kept,
        base_day: base_day + 1,
    })
}
