// The laws of why a number was not taken (02, Ticket 7): a number that is within the weight limit and not taken is the XOR of one set of taken
// numbers, each of which stands before it; and the reason that is found is the first that holds, and the only one. This crate has no functions.
#![tactic(auto)]
