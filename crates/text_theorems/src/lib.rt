// Theorems of row text: reading and writing undo each other, when a text is accepted and when line A is refused, how long an accepted
// text is, and that what lies beyond 8,192 bytes changes no answer. This crate has no functions: specs/ holds the laws that they
// rest on, and then the theorems.
#![tactic(auto)]
