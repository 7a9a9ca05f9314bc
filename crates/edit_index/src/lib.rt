// An index of a list's records (what it is: specs/Index.antt), on which Edit runs: the order of the records by their
// starts, the search in it, the records beside a place, and the records with their ids. Every public function is total.
#![tactic(auto)]

pub mod index;
pub mod neighbours;
pub mod order;
pub mod search;
