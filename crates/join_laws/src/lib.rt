// What holds of lists whose rows are joined (02, Ticket 9): the block at each point is unchanged, rows stay disjoint and never grow more, no
// pair is left, and joining twice is joining once; and how the next pair is found without looking at every row anew. This crate has no
// functions: specs/ holds the laws.
#![tactic(auto)]
