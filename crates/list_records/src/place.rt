// The search for the place of a start among the records of a lent list (02, W-203), from the front. It looks at no
// record behind the first that starts later.
ghost use Rattle.std.specs.Prelude.{◌≡◌};
ghost use Rattle.eit.specs.Placing.{records_lent, placing_in};
ghost use Rattle.eit.specs.Records.{lent_list};

use crate::records::RECORD_SIZE;
use eit::Place;

// How many records a lent list has: as many as it counts, and as its buffer holds.
fn records_lent(list: &[u32], count: usize) -> usize
    ensures { result ≡ records_lent (lent_list list.now count) }
{
    count.min(list.len() / RECORD_SIZE)
}

// The place before the first record that starts later, and how many records are looked at.
#[tactic(auto, using(crate::proofs::PlaceLaws::passes))]
pub fn place_in(list: &[u32], count: usize, start: u32) -> Place
    ensures { result ≡ placing_in start (lent_list list.now count) }
{
    let many = records_lent(list, count);
    for i in 0..many {
        if start < list[i * RECORD_SIZE + 1] {
            return Place {
                place: i,
                looked: i + 1,
            };
        }
    }
    Place {
        place: many,
        looked: many,
    }
}
