// Laws of symmetric blocks (02, Ticket 6; document 002): the matrix of the Gray columns is nonsingular, T z is z XOR z shifted down by one, and
// its inverse is Gray decoding; R is equal at all numbers with as many one-bits; the second measure is not below the first; a symmetric table
// is made of exactly one list of words. This crate has no functions: the definitions stand in block/specs/Symmetric.antt.
#![tactic(auto)]
