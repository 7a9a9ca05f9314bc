// The records of a file that was accepted (01, "Build, Read": marks never have 2, offsets are into the file).
ghost use Rattle.std.specs.Prelude.{◌≡◌, map, ◌+◌, ◌*◌, ◌^◌, ◌≤◌, ◌<◌, length};
ghost use Rattle.eit.specs.Overwrite.{overwrite};
ghost use Rattle.eit.specs.Records.{record_size, numbers_of_all};
ghost use Rattle.sections.specs.Decode.{stated_event_size, event_in, split_file};
ghost use Rattle.sections.specs.Split.{split_by};
ghost use Rattle.sections.specs.Every.{Every};
ghost use Rattle.sections.specs.Offsets.{records_at};
ghost use Rattle.sections.specs.Read.{file_records};
ghost use Rattle.read.specs.Fillable.{AreEvents, Fillable};

use codec_section::event;
use eit::Record;
use eit::limits::{EVENT_OVERHEAD, HEADER_SIZE};
use list_records::records;
use read_walk::events;

// The records of an event loop that begins at `from` in the file, written from record `place` on. Returns the place
// behind them.
fn fill_events(
    records: &mut [u32],
    place: usize,
    events: &[u8],
    from: usize,
    base_day: u32,
) -> usize
    requires { AreEvents base_day (split_by stated_event_size events.now)
        × ((place + length (split_by stated_event_size events.now)) * record_size ≤ length records.old)
        × (from + length events.now < 2 ^ 32) }
    ensures { records.new
        ≡ overwrite records.old (place * record_size)
        (numbers_of_all (records_at from (map (event_in base_day) (split_by stated_event_size events.now))))
        × (result ≡ place + length (split_by stated_event_size events.now)) }
{
    let mut n = place;
    let mut at = from;
    for bytes in events::events(events) {
        let Some(event) = event::read_event(bytes, base_day) else {
            return n;
        };
        let offset = (at + EVENT_OVERHEAD) as u32;
        records::write_record(records, n, Record { offset, ..event });
        n += 1;
        at += bytes.len();
    }
    n
}

// All records of the file, section after section.
pub fn fill_file(records: &mut [u32], file: &[u8], base_day: u32)
    requires { Every (Fillable base_day) (split_file file.now)
        × (length (file_records base_day file.now) * record_size ≤ length records.old)
        × (length file.now < 2 ^ 32) }
    ensures { records.new
        ≡ overwrite records.old 0 (numbers_of_all (file_records base_day file.now)) }
{
    let mut n = 0;
    for (offset, section) in read_walk::sections(file) {
        n = fill_events(
            records,
            n,
            events::event_loop(section),
            offset + HEADER_SIZE,
            base_day,
        );
    }
}
