// Sums and counts over a range of numbers. This crate has no functions: it holds the definitions, specs/Sums.antt, and the laws
// about them, specs/Laws.antt.
#![tactic(auto)]
