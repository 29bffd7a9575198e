// No second answer fits a promise: for each public operation, two answers with two final contents of what was lent that both meet its
// promise for the same input are equal. The promises are those that the contracts cite. This crate has no functions.
#![tactic(auto)]
