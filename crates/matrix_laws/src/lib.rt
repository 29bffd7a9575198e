// Matrices over GF(2). This crate has no functions: it holds laws about the definitions of block, in specs/, from matrices as linear
// maps to the inverse of T and the smaller block.
#![tactic(auto)]
