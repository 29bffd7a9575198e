// Light numbers, those with at most w one-bits, among the numbers t of a cube: how often a loop over its free inputs comes to each;
// and how many light numbers there are. This crate has no functions: specs/ holds the definitions that loops are proved by, and the laws.
#![tactic(auto)]
