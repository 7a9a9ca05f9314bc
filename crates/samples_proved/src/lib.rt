// The samples that document 01 marks P, and other lists and files, computed by the definitions of the calls; no code.
#![tactic(auto)]
