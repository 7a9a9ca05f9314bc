// The event list in a lent buffer: its records, read and written, and the place of a start among them.
#![tactic(auto)]

pub mod place;
pub mod records;
