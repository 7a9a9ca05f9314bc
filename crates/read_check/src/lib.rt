// Read without a record buffer (01, "Build, Read", "When a call says no"): check. It looks at every section once, and
// writes nothing.
#![tactic(auto)]

ghost use Rattle.std.specs.Prelude.{◌≡◌, List, ℕ};
ghost use Rattle.eit.specs.Sizes.{sizes_of};
ghost use Rattle.sections.specs.Read.{at_end, check_file};
ghost use Rattle.sections.specs.Walk.{Progress, passed};
ghost use Rattle.read_answer.specs.Outcome.{outcome_of};
ghost use Rattle.read_check.specs.Tracks.{Tracks};

use crate::section::WalkState;
use codec_crc::CrcTables;
use eit::limits::{BASE_DAY_MAX, ID_WORDS, TABLES};
use eit::{Caller, Identity, Sizes};
use read_answer::{FileRead, ReadError};

mod section;

// At the end of a file of `size` bytes: it ends after last_table_id, or early (25).
fn at_end(state: WalkState, versions: [u8; TABLES], size: usize) -> Result<FileRead, ReadError>
    ensures { (p : Progress) (offset : ℕ) (words : List ℕ) → Tracks offset state versions words p
        → at_end size (passed p) ≡ outcome_of result }
{
    let last = state
        .before
        .filter(|last| {
            last.section_number == last.last_section_number && last.table_id == last.last_table_id
        })
        .ok_or(ReadError::EarlyEnd(size))?;
    let triplet = last.triplet;
    let identity = Identity { triplet, versions };
    Ok(FileRead {
        identity,
        count: state.count,
    })
}

// Check under any sizes: 1, then section after section, until one is refused or the file ends.
fn check_within(file: &[u8], base_day: u32, sizes: Sizes) -> Result<FileRead, ReadError>
    ensures { check_file sizes base_day file.now ≡ outcome_of result }
{
    if BASE_DAY_MAX < base_day {
        return Err(ReadError::BaseDay);
    }
    let crc_tables = CrcTables::new();
    let mut versions = [0u8; TABLES];
    let mut seen = [0u64; ID_WORDS];
    let mut state = WalkState {
        before: None,
        least: 0,
        count: 0,
    };
    for (offset, section) in read_walk::sections(file) {
        state = section::check_section(
            section,
            offset,
            state,
            base_day,
            sizes,
            &crc_tables,
            &mut versions,
            &mut seen,
        )?;
    }
    at_end(state, versions, file.len())
}

// Answer, identity and number of events are those of the definition. It never says 27.
pub fn check(caller: Caller, file: &[u8], base_day: u32) -> Result<FileRead, ReadError>
    ensures { check_file (sizes_of caller) base_day file.now ≡ outcome_of result }
{
    check_within(file, base_day, Sizes::from(caller))
}
