// The roll at midnight as definitions (specs/), and W-205's claims proved of them (proofs/); no code.
#![tactic(auto)]
