// A script as it is read before any list (01, "Edit"): one command, the places of UNDOs and of live edits among the
// commands, and the passes over all of them. Every function is total.
#![tactic(auto)]

pub mod command;
pub mod places;
pub mod scan;
