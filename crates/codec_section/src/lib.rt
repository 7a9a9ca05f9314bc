// What a section is made of, as bytes and back: one event, one header; the arithmetic of its segment, and the version
// of its table. Every function is total: a read is `None` where bytes are truncated or broken, and a write that does
// not fit leaves all as it was.
#![tactic(auto)]

pub mod event;
pub mod header;
pub mod segment;
pub mod version;
