// The order of separate edits: no code.
#![tactic(auto)]
