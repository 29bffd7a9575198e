// The demands of the request as theorems over the definitions that the contracts cite. This crate has no functions: specs/ has one
// file for each thing demanded, and docs/DEMANDS.md says which sentence is which theorem.
#![tactic(auto)]
