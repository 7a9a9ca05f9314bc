// Greedy packing as definitions and laws, and the state of a pass that packs one element after the other; no code.
#![tactic(auto)]

// How far such a pass has come, which has held all elements so far.
#[derive(Clone, Copy)]
pub struct Filling {
    // How many parts it may still begin.
    pub more: usize,
    // What is left of the last part's room.
    pub free: usize,
}
