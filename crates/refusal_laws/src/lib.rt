// Laws of verdicts: which check of a list gives the answer. They serve every operation alike. This crate has no functions.
#![tactic(auto)]
