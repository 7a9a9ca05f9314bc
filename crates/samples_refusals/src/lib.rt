// Each of Read's refusals on short files, computed by the definition; no code.
#![tactic(auto)]
