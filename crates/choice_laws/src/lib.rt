// What the choice of 01 means. This crate has no functions: it holds laws about the definitions of block, specs/Order.antt the order
// of candidates, specs/Choice.antt the choice under any such order, specs/Chosen.antt the numbers chosen step by step.
#![tactic(auto)]
