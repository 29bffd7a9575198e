// How rows are transformed: what each step does to points, rows and lists. This crate has no functions: specs/ holds the laws, from
// one exchange and one shear to any number of steps.
#![tactic(auto)]
