// Plan and Build (01, "Build, Read").
#![tactic(auto)]

ghost use Rattle.std.specs.Prelude.{◌≡◌};
ghost use Rattle.eit.specs.Sizes.{sizes_of};
ghost use Rattle.eit.specs.Overwrite.{overwrite};
ghost use Rattle.eit.specs.Records.{lent_list, records_in};
ghost use Rattle.eit.specs.Events.{events_in};
ghost use Rattle.sections.specs.Encode.{file_bytes};
ghost use Rattle.schedule.specs.Plan.{plan};
ghost use Rattle.schedule.specs.Build.{are_versions, build};
ghost use Rattle.schedule.specs.SectionsOf.{sections_of};
ghost use Rattle.build.specs.Writing.{Writable};
ghost use Rattle.build_answer.specs.Outcome.{outcome_of};

use crate::section::Writer;
use build_answer::BuildError;
use build_counts::count;
use codec::pools::Pools;
use codec_crc::CrcTables;
use eit::limits::{BASE_DAY_MAX, TABLE_SEGMENTS, TABLES, VERSION_MAX};
use eit::{Caller, Identity, Sizes};

mod file;
mod section;

// Plan's entries for an unsound list: document 01's number (`plan`).
const UNSOUND: u8 = 254;

// Plan under any sizes: the counts of all segments, 254 each if the list is unsound.
fn plan_within(
    list: &[u32],
    count: usize,
    pools: &Pools<'_>,
    sizes: Sizes,
) -> [[u8; TABLE_SEGMENTS]; TABLES]
    ensures { result ≡ plan sizes pools.now (lent_list list.now count) }
{
    match count::count_sections(list, count, pools, sizes) {
        Some(counted) => build_plan::tables_of(&counted.counts),
        None => [[UNSOUND; TABLE_SEGMENTS]; TABLES],
    }
}

// 01's Plan: sixteen tables of thirty-two section counts, each that of the definition.
pub fn plan(
    caller: Caller,
    list: &[u32],
    count: usize,
    pools: &Pools<'_>,
) -> [[u8; TABLE_SEGMENTS]; TABLES]
    ensures { result
        ≡ plan (sizes_of caller) pools.now
        (lent_list list.now count) }
{
    plan_within(list, count, pools, Sizes::from(caller))
}

// Whether every version is at most 31.
fn are_versions(versions: &[u8]) -> bool
    ensures { result ≡ are_versions versions.now }
{
    versions.iter().all(|version| *version <= VERSION_MAX)
}

// The whole file of a list whose sections are counted. A function of its own, so that a refusal clears no room for the
// tables of CRC_32.
fn write_file(
    list: &[u32],
    count: usize,
    pools: &Pools<'_>,
    base_day: u32,
    identity: Identity,
    out: &mut [u8],
    sizes: Sizes,
    counts: &[u8],
)
    requires { Writable sizes identity (events_in pools.now (records_in count list.now)) counts.now out.old }
    ensures { out.new
        ≡ overwrite out.old 0
        (file_bytes base_day (sections_of sizes identity (events_in pools.now (records_in count list.now)))) }
{
    let writer = Writer {
        base_day,
        list,
        pools,
        crc_tables: &CrcTables::new(),
    };
    writer.write_file(out, identity, count, sizes, counts);
}

// Build under any sizes. Its refusals in their order, 1, 2, 12, 10, 11, come before anything is written.
fn build_within(
    list: &[u32],
    count: usize,
    pools: &Pools<'_>,
    base_day: u32,
    identity: Identity,
    out: &mut [u8],
    sizes: Sizes,
) -> Result<usize, BuildError>
    ensures { build sizes pools.now (lent_list list.now count) base_day
        identity out.old
        ≡ outcome_of result out.new }
{
    if BASE_DAY_MAX < base_day {
        return Err(BuildError::BaseDay);
    }
    if !are_versions(&identity.versions) {
        return Err(BuildError::Version);
    }
    let Some(counted) = count::count_sections(list, count, pools, sizes) else {
        return Err(BuildError::Unsound);
    };
    if let Some(index) = counted.lowest {
        return Err(BuildError::Unpackable(index));
    }
    let need = counted.need;
    if out.len() < need {
        return Err(BuildError::OutputShort(need));
    }
    write_file(
        list,
        count,
        pools,
        base_day,
        identity,
        out,
        sizes,
        &counted.counts,
    );
    Ok(need)
}

// 01's Build: number, value and every byte of the output are those of the definition.
pub fn build(
    caller: Caller,
    list: &[u32],
    count: usize,
    pools: &Pools<'_>,
    base_day: u32,
    identity: Identity,
    out: &mut [u8],
) -> Result<usize, BuildError>
    ensures { build (sizes_of caller) pools.now
        (lent_list list.now count) base_day identity out.old
        ≡ outcome_of result out.new }
{
    build_within(
        list,
        count,
        pools,
        base_day,
        identity,
        out,
        Sizes::from(caller),
    )
}
