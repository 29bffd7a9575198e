// What an answer of 0 says of a list of rows, for every operation on lists. This crate has no functions.
#![tactic(auto)]
