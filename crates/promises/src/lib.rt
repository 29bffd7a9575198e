// What each public operation promises: one record an operation, which the contracts cite. This crate has no functions.
#![tactic(auto)]
