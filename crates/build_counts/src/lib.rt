// How many sections each segment of a list's file has (01, "Build, Read": the packing rule), counted without a byte
// written.
#![tactic(auto)]

pub mod count;
pub mod cut;
pub mod segment;
