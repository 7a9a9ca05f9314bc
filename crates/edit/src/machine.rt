// The edits of the plain machine (01, "Edit") on an index of the list's records. While it is in use the records in the
// lent list are stale, and only what lies behind them is kept there.
ghost use Rattle.std.specs.Prelude.{◌≡◌, suc, ◌/◌, ◌<◌, min, length, get_or, drop};
ghost use Rattle.eit.specs.Pools.{Pools as LentPools};
ghost use Rattle.eit.specs.Records.{record_size};
ghost use Rattle.eit.specs.Sizes.{sizes_of};
ghost use Rattle.script.specs.Form.{command_of};
ghost use Rattle.edit_scan.specs.Commands.{model_command};
ghost use Rattle.edit_index.specs.Index.{indexed_list};
ghost use Rattle.edit.specs.Run.{run_one};
ghost use Rattle.edit.specs.Indexed.{place_left, Kept, Leaves};

use codec::pools::Pools;
use edit_answer::EditError;
use edit_index::index::Index;
use edit_index::search;
use edit_scan::command;
use edit_scan::command::Command;
use eit::{Caller, Record, Sizes, Time};
use list_records::records;
use list_records::records::RECORD_SIZE;

// What WITHDRAW sets the freed record to.
const ZEROS: Record = Record {
    id: 0,
    start: 0,
    duration: 0,
    marks: 0,
    offset: 0,
    chain_length: 0,
};

// How many events the list may have.
fn limit_of(list: &[u32], caller: Caller) -> usize
    ensures { result ≡ min (length list.now / record_size) (sizes_of caller).event_limit }
{
    (list.len() / RECORD_SIZE).min(Sizes::from(caller).event_limit)
}

// PUT: 5, 9, 6, 30, 8; then the record is put in its place.
fn put(
    list: &[u32],
    index: &mut Index<'_>,
    pools: &Pools<'_>,
    caller: Caller,
    at: usize,
    event: Record,
) -> Result<(), EditError>
    requires { Kept list.now index.old }
    ensures { Leaves
        (run_one (sizes_of caller) pools.now (indexed_list list.now index.old)
        (model_command at (Command.Put event)))
        result list.now index.new }
{
    if !list_sound::is_in_range(event) {
        return Err(EditError::OutOfRange(at));
    }
    if !pools.has_chain(event) {
        return Err(EditError::NoChain(at));
    }
    if index.slot_of(event.id).is_some() {
        return Err(EditError::WrongId(at));
    }
    let count = index.count();
    let found = search::place_of(index.entries(), event.start);
    if index.overlaps_neighbour(count, found.place, event) {
        return Err(EditError::Overlap(at));
    }
    if limit_of(list, caller) <= count {
        return Err(EditError::ListFull(at));
    }
    index.add(found.place, event);
    Ok(())
}

// WITHDRAW: 6; then the record is taken out, and the freed record of the lent list is set to six zeros.
fn withdraw(list: &mut [u32], index: &mut Index<'_>, at: usize, id: u32) -> Result<(), EditError>
    requires { Kept list.old index.old }
    ensures { (sizes : Sizes) (pools : LentPools) →
        Leaves
        (run_one sizes pools (indexed_list list.old index.old) (model_command at (Command.Withdraw id)))
        result list.new index.new }
{
    let Some(event) = index.record_of(id) else {
        return Err(EditError::WrongId(at));
    };
    let found = search::place_of(index.entries(), event.start);
    index.take_out(found.place - 1, id);
    records::write_record(list, index.count(), ZEROS);
    Ok(())
}

// The place that a start has once the record before place `out` is taken out, where it had `place` before.
fn place_left(place: usize, out: usize) -> usize
    requires { 0 < out }
    ensures { result ≡ place_left place out }
{
    if out <= place { place - 1 } else { place }
}

// MOVE: 5, 6, 30; then the record goes to the place of its new start among the others.
fn move_to(
    list: &[u32],
    index: &mut Index<'_>,
    at: usize,
    id: u32,
    start: u32,
) -> Result<(), EditError>
    requires { Kept list.now index.old }
    ensures { (sizes : Sizes) (pools : LentPools) →
        Leaves
        (run_one sizes pools (indexed_list list.now index.old) (model_command at (Command.Move id start)))
        result list.now index.new }
{
    if !Time::is_start(start) {
        return Err(EditError::OutOfRange(at));
    }
    let Some(event) = index.record_of(id) else {
        return Err(EditError::WrongId(at));
    };
    let places = search::places_of(index.entries(), event.start, start);
    let own = places.one.place - 1;
    let to = place_left(places.other.place, places.one.place);
    let moved = Record { start, ..event };
    if index.overlaps_neighbour(own, to, moved) {
        return Err(EditError::Overlap(at));
    }
    index.re_place(own, to, id, moved);
    Ok(())
}

// The command at an offset of the script; an UNDO changes nothing. The kinds of commands are closed, so an enum says
// which it is.
pub fn carry_out(
    list: &mut [u32],
    index: &mut Index<'_>,
    pools: &Pools<'_>,
    caller: Caller,
    script: &[u8],
    at: usize,
) -> Result<(), EditError>
    requires { Kept list.old index.old }
    ensures { Leaves
        (run_one (sizes_of caller) pools.now (indexed_list list.old index.old)
        (command_of (get_or script.now at 0) at (drop (suc at) script.now)))
        result list.new index.new }
{
    match command::command_at(script, at) {
        Command::Put(event) => put(list, index, pools, caller, at, event),
        Command::Withdraw(id) => withdraw(list, index, at, id),
        Command::Move(id, start) => move_to(list, index, at, id, start),
        Command::Undo => Ok(()),
    }
}
