// Read (01, "Build, Read"): check looks at the whole file and writes nothing; then, if the buffer is long enough (27),
// the records are filled in, which cannot fail.
#![tactic(auto)]

ghost use Rattle.std.specs.Prelude.{◌≡◌};
ghost use Rattle.eit.specs.Sizes.{sizes_of};
ghost use Rattle.sections.specs.Read.{read};
ghost use Rattle.read.specs.ReadOutcome.{read_outcome};

use eit::Caller;
use list_records::records::RECORD_SIZE;
use read_answer::{FileRead, ReadError};

mod fill;

// 01's Read: answer, identity, count and every number of the record buffer are those of the definition.
pub fn read(
    caller: Caller,
    file: &[u8],
    base_day: u32,
    records: &mut [u32],
) -> Result<FileRead, ReadError>
    ensures { read (sizes_of caller) base_day file.now records.old
        ≡ read_outcome result records.new }
{
    let accepted = read_check::check(caller, file, base_day)?;
    if records.len() / RECORD_SIZE < accepted.count {
        return Err(ReadError::RecordsShort(accepted.count));
    }
    fill::fill_file(records, file, base_day);
    Ok(accepted)
}
