// How far one depth sample can move the total: no code.
#![tactic(auto)]
