// Definitions (specs/) and laws (proofs/) of the file of sections and of Read; no code.
#![tactic(auto)]
