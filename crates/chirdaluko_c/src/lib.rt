// The static library that C and Rust link: each export is the face's call of that name, with the same clauses, since a
// static library exports no symbol of a crate below it.
#![tactic(auto)]

ghost use Rattle.std.specs.Prelude.{◌≡◌};
ghost use mathlib.Core.List.{flatten};
ghost use Rattle.eit.specs.Crc.{crc32};
ghost use Rattle.eit.specs.Sizes.{sizes_of};
ghost use Rattle.eit.specs.Pools.{lent_pools};
ghost use Rattle.eit.specs.Records.{lent_list};
ghost use Rattle.eit.specs.Placing.{placing_in};
ghost use Rattle.script.specs.Edit.{edit};
ghost use Rattle.sections.specs.Read.{check_file, read};
ghost use Rattle.schedule.specs.Plan.{plan};
ghost use Rattle.schedule.specs.Build.{build};
ghost use Rattle.schedule.specs.Rebuild.{rebuild};
ghost use Rattle.room.specs.ChainRoom.{chain_room};
ghost use Rattle.window.specs.Roll.{roll};
ghost use Rattle.chirdaluko.specs.Face.{caller_of, edited_of, placed_of, chain_room_of, rolled_of, built_of};
ghost use Rattle.chirdaluko.specs.Face.{given_identity, answer_of, reading_of};

use chirdaluko::{EitBuilt, EitEdited, EitPlace, EitReading, EitRolled, EitRoom};
use eit::limits::{SEGMENTS, TABLES};

// Edit: number, value, count and every number of the list are those of the definition.
#[unsafe(no_mangle)]
pub extern "C" fn eit_edit<'a>(
    caller: u8,
    list: &mut [u32],
    count: usize,
    day: &'a [u8],
    series: &'a [u8],
    script: &[u8],
) -> EitEdited
    ensures { edit (sizes_of (caller_of caller)) (lent_pools day.now series.now)
        (lent_list list.old count) script.now
        ≡ edited_of result list.new }
{
    chirdaluko::eit_edit(caller, list, count, day, series, script)
}

// The place of a start among the records of a list, from the front.
#[unsafe(no_mangle)]
pub extern "C" fn eit_place(list: &[u32], count: usize, start: u32) -> EitPlace
    ensures { placing_in start (lent_list list.now count) ≡ placed_of result }
{
    chirdaluko::eit_place(list, count, start)
}

// How much text still fits: number and length are those of the definition (02, W-201).
#[unsafe(no_mangle)]
pub extern "C" fn eit_chain_room<'a>(
    caller: u8,
    list: &[u32],
    count: usize,
    day: &'a [u8],
    series: &'a [u8],
    start: u32,
) -> EitRoom
    ensures { result
        ≡ chain_room_of
        (chain_room (sizes_of (caller_of caller)) (lent_pools day.now series.now)
        (lent_list list.now count) start) }
{
    chirdaluko::eit_chain_room(caller, list, count, day, series, start)
}

// Roll: number, value, count, base day and every number of the list are those of the definition (02, W-205).
#[unsafe(no_mangle)]
pub extern "C" fn eit_roll<'a>(
    caller: u8,
    list: &mut [u32],
    count: usize,
    day: &'a [u8],
    series: &'a [u8],
    base_day: u32,
) -> EitRolled
    ensures { roll (sizes_of (caller_of caller)) (lent_pools day.now series.now)
        (lent_list list.old count) base_day
        ≡ rolled_of result list.new }
{
    chirdaluko::eit_roll(caller, list, count, day, series, base_day)
}

// Build: number, value and every byte of the output are those of the definition.
#[unsafe(no_mangle)]
pub extern "C" fn eit_build<'a>(
    caller: u8,
    list: &[u32],
    count: usize,
    day: &'a [u8],
    series: &'a [u8],
    base_day: u32,
    service_id: u16,
    transport_stream_id: u16,
    original_network_id: u16,
    versions: &[u8; TABLES],
    out: &mut [u8],
) -> EitBuilt
    ensures { build (sizes_of (caller_of caller)) (lent_pools day.now series.now)
        (lent_list list.now count) base_day
        (given_identity service_id transport_stream_id original_network_id versions.now)
        out.old
        ≡ built_of result out.new }
{
    chirdaluko::eit_build(
        caller,
        list,
        count,
        day,
        series,
        base_day,
        service_id,
        transport_stream_id,
        original_network_id,
        versions,
        out,
    )
}

// Rebuild: number, value and every byte of the output are those of the definition (02, W-208).
#[unsafe(no_mangle)]
pub extern "C" fn eit_rebuild<'a>(
    caller: u8,
    previous: &[u8],
    previous_base_day: u32,
    list: &[u32],
    count: usize,
    day: &'a [u8],
    series: &'a [u8],
    base_day: u32,
    out: &mut [u8],
) -> EitBuilt
    ensures { rebuild (sizes_of (caller_of caller)) previous.now previous_base_day
        (lent_pools day.now series.now) (lent_list list.now count) base_day
        out.old
        ≡ built_of result out.new }
{
    chirdaluko::eit_rebuild(
        caller,
        previous,
        previous_base_day,
        list,
        count,
        day,
        series,
        base_day,
        out,
    )
}

// Plan: its sixteen tables of thirty-two section counts, one behind the other.
#[unsafe(no_mangle)]
pub extern "C" fn eit_plan<'a>(
    caller: u8,
    list: &[u32],
    count: usize,
    day: &'a [u8],
    series: &'a [u8],
    counts: &mut [u8; SEGMENTS],
)
    ensures { counts.new
        ≡ flatten (plan (sizes_of (caller_of caller)) (lent_pools day.now series.now)
        (lent_list list.now count)) }
{
    chirdaluko::eit_plan(caller, list, count, day, series, counts)
}

// Read: number, value, count, identity and every number of the record buffer are those of the definition.
#[unsafe(no_mangle)]
pub extern "C" fn eit_read(
    caller: u8,
    file: &[u8],
    base_day: u32,
    records: &mut [u32],
) -> EitReading
    ensures { read (sizes_of (caller_of caller)) base_day file.now records.old
        ≡ reading_of result records.new }
{
    chirdaluko::eit_read(caller, file, base_day, records)
}

// Read without a record buffer.
#[unsafe(no_mangle)]
pub extern "C" fn eit_check(caller: u8, file: &[u8], base_day: u32) -> EitReading
    ensures { check_file (sizes_of (caller_of caller)) base_day file.now ≡ answer_of result }
{
    chirdaluko::eit_check(caller, file, base_day)
}

// CRC_32.
#[unsafe(no_mangle)]
pub extern "C" fn eit_crc32(bytes: &[u8]) -> u32
    ensures { result ≡ crc32 bytes.now }
{
    chirdaluko::eit_crc32(bytes)
}
