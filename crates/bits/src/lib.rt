// Numbers as rows of bits: single bits, exclusive or, and, parity, for any width. This crate has no functions: it holds two
// definitions, specs/Digits.antt, and the laws about them, which every other crate's proofs cite.
#![tactic(auto)]
