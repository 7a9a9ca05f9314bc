// The face for C and Rust (include/chirdaluko.h, bindings/rust): numbers and slices only. Each call turns an answer
// into document 01's numbers, and has the same equation as the call behind it.
#![tactic(auto)]

ghost use Rattle.std.specs.Prelude.{◌≡◌};
ghost use mathlib.Core.List.{flatten};
ghost use Rattle.eit.specs.Crc.{crc32};
ghost use Rattle.eit.specs.Sizes.{sizes_of};
ghost use Rattle.eit.specs.Pools.{lent_pools};
ghost use Rattle.eit.specs.Records.{lent_list};
ghost use Rattle.eit.specs.Placing.{placing_in};
ghost use Rattle.script.specs.Edit.{edit};
ghost use Rattle.sections.specs.Read.{check_file, read};
ghost use Rattle.schedule.specs.Plan.{plan};
ghost use Rattle.schedule.specs.Build.{build};
ghost use Rattle.schedule.specs.Rebuild.{rebuild};
ghost use Rattle.room.specs.ChainRoom.{chain_room};
ghost use Rattle.window.specs.Roll.{roll};
ghost use Rattle.read_answer.specs.Outcome.{outcome_of};
ghost use Rattle.chirdaluko.specs.Face.{caller_of, edited_of, placed_of, chain_room_of, rolled_of, built_of, numbered};
ghost use Rattle.chirdaluko.specs.Face.{given_identity, answer_of, reading_of};

use codec::pools::Pools;
use eit::limits::{SEGMENTS, TABLES};
use eit::{Caller, Identity, Triplet};
use list_records::place;
use read_answer::{FileRead, ReadError};
use refusal::Refusal;
use roll::Rolled;

// C has no Result and no Option, so what a call says is numbers in a struct.

// What Edit returns: document 01's number and value, and the count then held.
#[repr(C)]
#[derive(Clone, Copy)]
pub struct EitEdited {
    pub number: u32,
    pub value: usize,
    pub count: usize,
}

// What the search for a place returns: the place, and how many records it looked at (02, W-203).
#[repr(C)]
#[derive(Clone, Copy)]
pub struct EitPlace {
    pub place: usize,
    pub looked: usize,
}

// How much text still fits (02, W-201).
#[repr(C)]
#[derive(Clone, Copy)]
pub struct EitRoom {
    // Document 02's number.
    pub number: u32,
    // 1 if a length is given, else 0.
    pub fits: u32,
    // The length, 0 if none is given.
    pub length: u32,
}

// What a roll returns: document 02's number and value, and the count and the base day then held (W-205).
#[repr(C)]
#[derive(Clone, Copy)]
pub struct EitRolled {
    pub number: u32,
    pub value: usize,
    pub count: usize,
    pub base_day: u32,
}

// What Build and Rebuild return: document 01's number and value.
#[repr(C)]
#[derive(Clone, Copy)]
pub struct EitBuilt {
    pub number: u32,
    pub value: usize,
}

// What Read returns: document 01's number and value, the number of events, and the identity of the file; with a
// refusal, count and identity are 0.
#[repr(C)]
#[derive(Clone, Copy)]
pub struct EitReading {
    pub number: u32,
    pub value: usize,
    pub count: usize,
    pub service_id: u16,
    pub transport_stream_id: u16,
    pub original_network_id: u16,
    // That of table 0x50 first; 0 for a table that the file does not have (02, W-208).
    pub versions: [u8; TABLES],
}

// Whom a number of C's names: 0 broadcast, any other cable.
fn caller_of(caller: u8) -> Caller
    ensures { result ≡ caller_of caller }
{
    if caller == 0 {
        Caller::Broadcast
    } else {
        Caller::Cable
    }
}

// What Build or Rebuild says, as numbers.
fn numbered<E: Refusal>(built: Result<usize, E>) -> EitBuilt
    ensures { result ≡ numbered E.number_by E.value_by built }
{
    EitBuilt {
        number: refusal::number_of(built),
        value: refusal::value_of(built),
    }
}

// Edit: number, value, count and every number of the list are those of the definition.
#[unsafe(no_mangle)]
pub extern "C" fn eit_edit<'a>(
    caller: u8,
    list: &mut [u32],
    count: usize,
    day: &'a [u8],
    series: &'a [u8],
    script: &[u8],
) -> EitEdited
    ensures { edit (sizes_of (caller_of caller)) (lent_pools day.now series.now)
        (lent_list list.old count) script.now
        ≡ edited_of result list.new }
{
    let mut held = count;
    let pools = Pools::new(day, series);
    let edited = edit::edit(caller_of(caller), list, &mut held, &pools, script);
    EitEdited {
        number: refusal::number_of(edited),
        value: edit_answer::value_of(edited, held),
        count: held,
    }
}

// The place of a start among the records of a list, from the front.
#[unsafe(no_mangle)]
pub extern "C" fn eit_place(list: &[u32], count: usize, start: u32) -> EitPlace
    ensures { placing_in start (lent_list list.now count) ≡ placed_of result }
{
    let found = place::place_in(list, count, start);
    EitPlace {
        place: found.place,
        looked: found.looked,
    }
}

// How much text still fits: number and length are those of the definition (02, W-201).
#[unsafe(no_mangle)]
pub extern "C" fn eit_chain_room<'a>(
    caller: u8,
    list: &[u32],
    count: usize,
    day: &'a [u8],
    series: &'a [u8],
    start: u32,
) -> EitRoom
    ensures { result
        ≡ chain_room_of
        (chain_room (sizes_of (caller_of caller)) (lent_pools day.now series.now)
        (lent_list list.now count) start) }
{
    let pools = Pools::new(day, series);
    let answer = chain_room::chain_room(caller_of(caller), list, count, &pools, start);
    let longest = answer.unwrap_or(None);
    EitRoom {
        number: refusal::number_of(answer),
        fits: longest.is_some() as u32,
        length: longest.unwrap_or(0),
    }
}

// Roll: number, value, count, base day and every number of the list are those of the definition (02, W-205).
#[unsafe(no_mangle)]
pub extern "C" fn eit_roll<'a>(
    caller: u8,
    list: &mut [u32],
    count: usize,
    day: &'a [u8],
    series: &'a [u8],
    base_day: u32,
) -> EitRolled
    ensures { roll (sizes_of (caller_of caller)) (lent_pools day.now series.now)
        (lent_list list.old count) base_day
        ≡ rolled_of result list.new }
{
    let pools = Pools::new(day, series);
    let answer = roll::roll(caller_of(caller), list, count, &pools, base_day);
    // A refusal leaves the count and the base day.
    let held = answer.unwrap_or(Rolled { count, base_day });
    EitRolled {
        number: refusal::number_of(answer),
        value: refusal::value_of(answer.map(|rolled| rolled.count)),
        count: held.count,
        base_day: held.base_day,
    }
}

// Build: number, value and every byte of the output are those of the definition.
#[unsafe(no_mangle)]
pub extern "C" fn eit_build<'a>(
    caller: u8,
    list: &[u32],
    count: usize,
    day: &'a [u8],
    series: &'a [u8],
    base_day: u32,
    service_id: u16,
    transport_stream_id: u16,
    original_network_id: u16,
    versions: &[u8; TABLES],
    out: &mut [u8],
) -> EitBuilt
    ensures { build (sizes_of (caller_of caller)) (lent_pools day.now series.now)
        (lent_list list.now count) base_day
        (given_identity service_id transport_stream_id original_network_id versions.now)
        out.old
        ≡ built_of result out.new }
{
    let triplet = Triplet {
        service_id,
        transport_stream_id,
        original_network_id,
    };
    let identity = Identity {
        triplet,
        versions: *versions,
    };
    numbered(build::build(
        caller_of(caller),
        list,
        count,
        &Pools::new(day, series),
        base_day,
        identity,
        out,
    ))
}

// Rebuild: number, value and every byte of the output are those of the definition (02, W-208).
#[unsafe(no_mangle)]
pub extern "C" fn eit_rebuild<'a>(
    caller: u8,
    previous: &[u8],
    previous_base_day: u32,
    list: &[u32],
    count: usize,
    day: &'a [u8],
    series: &'a [u8],
    base_day: u32,
    out: &mut [u8],
) -> EitBuilt
    ensures { rebuild (sizes_of (caller_of caller)) previous.now previous_base_day
        (lent_pools day.now series.now) (lent_list list.now count) base_day
        out.old
        ≡ built_of result out.new }
{
    numbered(rebuild::rebuild(
        caller_of(caller),
        previous,
        previous_base_day,
        list,
        count,
        &Pools::new(day, series),
        base_day,
        out,
    ))
}

// Plan: its sixteen tables of thirty-two section counts, one behind the other.
#[unsafe(no_mangle)]
pub extern "C" fn eit_plan<'a>(
    caller: u8,
    list: &[u32],
    count: usize,
    day: &'a [u8],
    series: &'a [u8],
    counts: &mut [u8; SEGMENTS],
)
    ensures { counts.new
        ≡ flatten (plan (sizes_of (caller_of caller)) (lent_pools day.now series.now)
        (lent_list list.now count)) }
{
    let pools = Pools::new(day, series);
    *counts = build_plan::flat_of(build::plan(caller_of(caller), list, count, &pools));
}

// What Read says, as numbers: with a refusal, count and identity are 0.
impl From<Result<FileRead, ReadError>> for EitReading {
    ghost from_gives = { λ read reading. answer_of reading ≡ outcome_of read };

    fn from(read: Result<FileRead, ReadError>) -> Self {
        let identity = read.map_or(eit::zero_identity(), |accepted| accepted.identity);
        let Identity { triplet, versions } = identity;
        EitReading {
            number: refusal::number_of(read),
            value: refusal::value_of(read.map(|accepted| accepted.count)),
            count: read_answer::count_of(read),
            service_id: triplet.service_id,
            transport_stream_id: triplet.transport_stream_id,
            original_network_id: triplet.original_network_id,
            versions,
        }
    }
}

// Read: number, value, count, identity and every number of the record buffer are those of the definition.
#[unsafe(no_mangle)]
pub extern "C" fn eit_read(
    caller: u8,
    file: &[u8],
    base_day: u32,
    records: &mut [u32],
) -> EitReading
    ensures { read (sizes_of (caller_of caller)) base_day file.now records.old
        ≡ reading_of result records.new }
{
    read::read(caller_of(caller), file, base_day, records).into()
}

// Read without a record buffer.
#[unsafe(no_mangle)]
pub extern "C" fn eit_check(caller: u8, file: &[u8], base_day: u32) -> EitReading
    ensures { check_file (sizes_of (caller_of caller)) base_day file.now ≡ answer_of result }
{
    read_check::check(caller_of(caller), file, base_day).into()
}

// CRC_32.
#[unsafe(no_mangle)]
pub extern "C" fn eit_crc32(bytes: &[u8]) -> u32
    ensures { result ≡ crc32 bytes.now }
{
    codec_crc::crc32(bytes)
}
