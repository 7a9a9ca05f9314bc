// What the calls say of a script and of the list that it makes, printed for program samples. No contract can say what
// is written on standard output; the gate compares it.
#![tactic(auto)]

pub mod exchanged;
pub mod lines;
pub mod show;
