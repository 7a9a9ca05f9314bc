// Build and Plan as definitions (specs/), demands 2 and 3 proved of them (proofs/); no code.
#![tactic(auto)]
