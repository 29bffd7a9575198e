// Lists by place: what a list holds, the least place that passes a test, and a lent list with a result stored at its front. This
// crate has no functions: it holds the definitions, specs/Places.antt, and the laws about them.
#![tactic(auto)]
