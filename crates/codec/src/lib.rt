// Big-endian fields, chains, parts of pools, and a set of numbers. Every function is total: what is truncated is read
// as its definition says, and a write that does not fit leaves all as it was.
#![tactic(auto)]

pub mod chain;
pub mod fields;
pub mod pools;
pub mod seen;
