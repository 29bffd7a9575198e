// The answer to why a number was not taken (02, Ticket 7), in numbers. Every function here is inner.
#![tactic(auto)]

ghost use Rattle.std.specs.Prelude.{◌≡◌};
ghost use Rattle.block.specs.Reasons.{why_numbers};

use block::{Answer, Reason, WhyAnswer};

// The answer that a reason is.
pub fn given_numbers(reason: Reason) -> WhyAnswer
    ensures { result ≡ why_numbers (Ok reason) }
{
    match reason {
        Reason::Zero => WhyAnswer {
            number: 0,
            a: 0,
            b: 0,
            reason: 1,
            step: 0,
            set: 0,
        },
        Reason::Over => WhyAnswer {
            number: 0,
            a: 0,
            b: 0,
            reason: 2,
            step: 0,
            set: 0,
        },
        Reason::Taken(step) => WhyAnswer {
            number: 0,
            a: 0,
            b: 0,
            reason: 3,
            step,
            set: 0,
        },
        Reason::Xor(set) => WhyAnswer {
            number: 0,
            a: 0,
            b: 0,
            reason: 4,
            step: 0,
            set,
        },
    }
}

// The answer in numbers.
pub fn in_numbers(why: Result<Reason, Answer>) -> WhyAnswer
    ensures { result ≡ why_numbers why }
{
    match why {
        Ok(reason) => given_numbers(reason),
        Err(v) => WhyAnswer {
            number: v.number,
            a: v.a,
            b: v.b,
            reason: 0,
            step: 0,
            set: 0,
        },
    }
}
