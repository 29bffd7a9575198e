// R from pairs of rows (document 003, Theorem 1) and refusal 7. This crate has no functions: specs/ holds what a pair of rows adds
// to R, the theorem that these add up to R, the cubes that stand for the pairs, and what says that no two rows share a point.
#![tactic(auto)]
