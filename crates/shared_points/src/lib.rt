// The search for two rows that share a point (01, Numbers that come back, 7), by the masks and values of the rows. Every function here is
// inner.
#![tactic(auto)]

ghost use Rattle.std.specs.Prelude.{◌≡◌, eqb, length};
ghost use Rattle.std.specs.Int.Bits.{bit_and, bit_xor};
ghost use Rattle.shared_points.specs.Pairs.{FirstPair, pair_answer, ApartAfter};

use block::Answer;

// Whether two rows share a point: no input is fixed in both at different values.
pub fn meet(mask: u32, value: u32, mask2: u32, value2: u32) -> bool
    ensures { result ≡ eqb (bit_and (bit_and mask mask2) (bit_xor value value2)) 0 }
{
    (mask & mask2) & (value ^ value2) == 0
}

// The first pair of rows that share a point: smallest first, then smallest second. The loops are left by a label with the pair, which is the form
// that 01 names for this search.
pub fn first_pair(masks: &[u32], values: &[u32]) -> Option<(usize, usize)>
    requires { length values.now ≡ length masks.now }
    ensures { FirstPair masks.now values.now result }
{
    let p = masks.len();
    let mut found = None;
    'search: for i in 0..p {
        for j in i + 1..p {
            if meet(masks[i], values[i], masks[j], values[j]) {
                found = Some((i, j));
                break 'search;
            }
        }
    }
    found
}

// The answer of check 7.
pub fn refuse_pair(pair: Option<(usize, usize)>) -> Answer
    ensures { result ≡ pair_answer pair }
{
    match pair {
        Some((i, j)) => Answer {
            number: 7,
            a: i,
            b: j,
        },
        None => Answer {
            number: 0,
            a: 0,
            b: 0,
        },
    }
}

// 7 after an earlier answer: a refusal is handed on, and no pair is looked for.
pub fn then_apart(v: Answer, masks: &[u32], values: &[u32]) -> Answer
    requires { length values.now ≡ length masks.now }
    ensures { ApartAfter v masks.now values.now result }
{
    if v.number != 0 {
        return v;
    }
    refuse_pair(first_pair(masks, values))
}
