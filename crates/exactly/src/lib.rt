// The "Given exactly when" column of 01's table as theorems over the definitions that the contracts cite, operation by operation. This
// crate has no functions.
#![tactic(auto)]
