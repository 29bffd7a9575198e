// What holds of lists that overlap on purpose (02, Ticket 10): where a region is halved, by masks; that the number of free inputs falls at each
// halving; that the rows of a region share no point, lie over the points of the list's rows that it has and no others, and have the OR of the
// rows there; that no region is visited twice, and how many are visited. This crate has no functions: specs/ holds the laws.
#![tactic(auto)]
