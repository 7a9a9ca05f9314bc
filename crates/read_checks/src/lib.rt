// Read's checks of one section before its events, a function for each refusal (01, "When a call says no": per section
// 20, 21, 22, 23). Every function is total: it takes any bytes, and what is known of the section before.
#![tactic(auto)]

pub mod frame;
pub mod header;
pub mod numbering;
