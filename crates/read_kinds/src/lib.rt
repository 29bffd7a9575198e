// The text reader's answer in 01's numbers. Every function here is inner.
#![tactic(auto)]

ghost use Rattle.std.specs.Prelude.{◌≡◌};
ghost use Rattle.block.specs.Text.{kind_number, numbers};

use block::{Headings, Kind, ReadAnswer, Refusal};

// The number of a refusal's kind.
pub fn kind_number(kind: Kind) -> u32
    ensures { result ≡ kind_number kind }
{
    match kind {
        Kind::Inputs => 1,
        Kind::Outputs => 2,
        Kind::Count => 4,
        Kind::Room => 5,
        Kind::Form => 10,
    }
}

// The answer in 01's numbers.
pub fn in_numbers(answer: Result<Headings, Refusal>) -> ReadAnswer
    ensures { result ≡ numbers answer }
{
    match answer {
        Ok(h) => ReadAnswer {
            number: 0,
            a: 0,
            b: 0,
            n: h.n,
            k: h.k,
            block_type: h.block_type,
            type_line: h.type_line,
            count: h.count,
        },
        Err(r) => ReadAnswer {
            number: kind_number(r.kind),
            a: r.a,
            b: r.b,
            n: 0,
            k: 0,
            block_type: 0,
            type_line: 0,
            count: 0,
        },
    }
}
