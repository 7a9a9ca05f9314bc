// How much text still fits at a start, as definitions (specs/), and W-201's claims proved of them (proofs/); no code.
#![tactic(auto)]
