// The small rows and sessions of document 01: no code.
#![tactic(auto)]
