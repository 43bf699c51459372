// What SET and TAKE BACK leave of depths that are tried, judged and written: definitions and laws. SET settles a candidate (crate settle), TAKE BACK what a record saved (crate restore).
#![tactic(auto)]
