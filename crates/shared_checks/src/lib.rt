// An answer made of one check, a check after an earlier answer, and the checks that several operations share: ranges, lent room, and the
// three that every operation but reading begins with; and what a type makes of a missing point. Every function here is inner.
#![tactic(auto)]

ghost use Rattle.std.specs.Prelude.{◌≡◌, ◌||◌, [], ◌∷◌, ◌≤◌, ◌^◌, ltb};
ghost use Rattle.block.specs.Limits.{list_inputs};
ghost use Rattle.block.specs.Words.{missing};
ghost use Rattle.block.specs.Refusals.{answer, check, verdict, and_then, outside, typed_checks};

use block::{Answer, FD, FR, LIST_INPUTS, OUTPUTS};

pub fn refuse(number: u32, a: usize, b: usize) -> Answer
    ensures { result ≡ answer number a b }
{
    Answer { number, a, b }
}

// The answer that one check gives.
pub fn refuse_where(holds: bool, number: u32, a: usize, b: usize) -> Answer
    ensures { result ≡ verdict (check holds number a b ∷ []) }
{
    if holds {
        refuse(number, a, b)
    } else {
        refuse(0, 0, 0)
    }
}

// One check after an earlier answer: a refusal is handed on.
pub fn then_where(v: Answer, holds: bool, number: u32, a: usize, b: usize) -> Answer
    ensures { result ≡ and_then v (verdict (check holds number a b ∷ [])) }
{
    if v.number != 0 {
        return v;
    }
    refuse_where(holds, number, a, b)
}

// Whether x lies outside low to high.
pub fn is_outside(low: usize, high: usize, x: usize) -> bool
    ensures { result ≡ outside low high x }
{
    x < low || high < x
}

// 2^n for an n that the sizes let through. Another n, which they refuse, has 0: what compares with it is not asked then.
pub fn size_of(n: usize) -> usize
    ensures { n ≤ list_inputs → result ≡ 2 ^ n }
{
    if LIST_INPUTS < n {
        return 0;
    }
    bit_work::size(n)
}

// Whether a lent room of a method is too short: n numbers for each matrix, `most` places for the smaller block.
pub fn is_short(n: usize, room_t: usize, room_sigma: usize, most: usize, room: usize) -> bool
    ensures { result ≡ ltb room_t n || (ltb room_sigma n || ltb room most) }
{
    room_t < n || room_sigma < n || room < most
}

// 1, 2 and 3 of the type, with which every operation but reading begins: n from 1 to most, k from 1 to 15, and a number that is a type.
pub fn sizes(most: usize, n: usize, k: usize, block_type: usize) -> Answer
    ensures { result ≡ verdict (typed_checks most n k block_type []) }
{
    let inputs = refuse_where(is_outside(1, most, n), 1, 0, 0);
    let columns = then_where(inputs, is_outside(1, OUTPUTS, k), 2, 0, 0);
    then_where(columns, is_outside(FR, FD, block_type), 3, 0, 0)
}

// The word of a missing point: no output for type fr, word 0 for type fd. Another number, which the sizes refuse, has 0 too.
pub fn missing_word(block_type: usize) -> u32
    ensures { result ≡ missing block_type }
{
    if block_type == FR { 65535 } else { 0 }
}
