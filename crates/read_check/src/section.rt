// One section behind those before it: 20, 21, 22, 23, 24, 26 (01, "When a call says no").
ghost use Rattle.std.specs.Prelude.{◌+◌, length};
ghost use Rattle.sections.specs.Walk.{Progress, step};
ghost use Rattle.read_check.specs.Tracks.{Tracks, SameVerdict};

use codec_crc::CrcTables;
use codec_section::header::SectionHeader;
use codec_section::version;
use eit::Sizes;
use read_answer::ReadError;
use read_checks::{frame, header, numbering};
use read_walk::events;

// What is known before a section: the header before it, the least start of the next event, and the events so far.
#[derive(Clone, Copy)]
pub struct WalkState {
    pub before: Option<SectionHeader>,
    pub least: u64,
    pub count: usize,
}

// The checks of the section at `offset`, in their order, with the versions of the tables so far. The section's version
// becomes that of its table, and the ids of its events are added to the set.
pub fn check_section(
    section: &[u8],
    offset: usize,
    state: WalkState,
    base_day: u32,
    sizes: Sizes,
    crc_tables: &CrcTables,
    versions: &mut [u8],
    seen: &mut [u64],
) -> Result<WalkState, ReadError>
    ensures { (p : Progress) → Tracks offset state versions.old seen.old p
        → SameVerdict (offset + length section.now) result versions.new seen.new
        (step sizes base_day p section.now) }
{
    if !frame::is_framed(section, sizes) {
        return Err(ReadError::Frame(offset));
    }
    if !frame::has_right_crc(crc_tables.entries(), section) {
        return Err(ReadError::Crc(offset));
    }
    let before = state.before;
    let shown = header::check_header(before, versions, section).ok_or(ReadError::Header(offset))?;
    if !numbering::has_right_numbering(before, shown) {
        return Err(ReadError::Numbering(offset));
    }
    let events = events::event_loop(section);
    let checked = read_events::check_events(events, shown, base_day, state.least, seen);
    let Ok(passed) = checked else {
        return Err(ReadError::EventLoop(offset));
    };
    let found = passed.count;
    if sizes.event_limit < found || sizes.event_limit - found < state.count {
        return Err(ReadError::EventLimit(offset));
    }
    version::set_version(versions, shown.table_id, shown.version);
    Ok(WalkState {
        before: Some(shown),
        least: passed.least,
        count: state.count + found,
    })
}
