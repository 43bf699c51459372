// The theorem of a run: no code.
#![tactic(auto)]
