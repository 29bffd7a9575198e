// The blocks that 01 marks P, proved over the answers that the contracts cite (specs/Cases.antt), and the text of its sheet
// example (specs/Example.antt). This crate has no functions.
#![tactic(auto)]
