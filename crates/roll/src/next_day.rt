// The records of the next base day, at the front of the lent buffer (02, W-205).
ghost use Rattle.std.specs.Prelude.{◌≡◌, ◌*◌, ◌≤◌, length};
ghost use Rattle.eit.specs.Overwrite.{overwrite};
ghost use Rattle.eit.specs.Records.{record_size, records_in, numbers_of_all};
ghost use Rattle.window.specs.Roll.{next_day};

use eit::Record;
use eit::limits::SECONDS_OF_DAY;
use list_records::records;

// Moves the records that do not start on the first day to the front, each a day earlier, and returns how many they are.
// A record goes to its own place or to one that was looked at before, so none is lost.
#[tactic(auto, using(crate::proofs::KeepLaws::keeping))]
pub fn keep_later(list: &mut [u32], count: usize) -> usize
    requires { count * record_size ≤ length list.old }
    ensures { (result ≡ length (next_day (records_in count list.old)))
        × (list.new
        ≡ overwrite list.old 0 (numbers_of_all (next_day (records_in count list.old)))) }
{
    let mut kept = 0;
    for i in 0..count {
        let event = records::record_at(list, i);
        if SECONDS_OF_DAY <= event.start {
            let moved = Record {
                start: event.start - SECONDS_OF_DAY,
                ..event
            };
            records::write_record(list, kept, moved);
            kept += 1;
        }
    }
    kept
}
