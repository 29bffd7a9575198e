// Theorems on models in BLIF (02, Ticket 4), over the definitions that the promises cite. This crate has no functions: the theorems stand
// in specs/.
#![tactic(auto)]
