// The signed Walsh transform over the integers, and its laws: orthogonality, the inverse, the Wiener-Khinchin theorem and Parseval's
// equation (02, Ticket 5; document 004, section 2.2). This crate has no functions: specs/Walsh.antt holds the definitions,
// specs/Theorems.antt the laws, and the other files what the loops of crates walsh and spectrum_words are proved by.
#![tactic(auto)]
