// The checks of the operations on lists of rows, in the order of 01's numbers: how many rows there are, what every operation asks of the
// rows, and the verdicts made of these. Each step is told the answer so far and hands a refusal on. Every function here is inner.
#![tactic(auto)]

ghost use Rattle.std.specs.Prelude.{◌≡◌, [], ◌∷◌};
ghost use Rattle.block.specs.Limits.{list_inputs, smaller_rows};
ghost use Rattle.block.specs.Words.{rows_of};
ghost use Rattle.block.specs.Refusals.{verdict, and_then};
ghost use Rattle.block.specs.Lists.{count_check, bad_row_check, share_check, row_checks, row_value_verdict, method_checked, fill_verdict};
ghost use Rattle.block.specs.Reasons.{why_verdict};
ghost use Rattle.block.specs.Joins.{join_verdict};
ghost use Rattle.block.specs.Overlaps.{disjoin_checked};
ghost use Rattle.answered_laws.specs.Passed.{InRange};

use block::{Answer, FD, GIVEN_ROWS, LIST_INPUTS, SMALLER_ROWS, TABLE_INPUTS};

// 4: from 1 to most rows.
pub fn then_count(v: Answer, most: usize, masks: &[u32], values: &[u32], words: &[u32]) -> Answer
    ensures { result ≡ and_then v (verdict (count_check most (rows_of masks.now values.now words.now) ∷ [])) }
{
    let count = flat_rows::row_count(masks, values, words);
    shared_checks::then_where(v, shared_checks::is_outside(1, most, count), 4, 0, 0)
}

// 6 after an earlier answer: a refusal is handed on, and no row is looked at.
pub fn then_formed(
    v: Answer,
    n: usize,
    k: usize,
    masks: &[u32],
    values: &[u32],
    words: &[u32],
) -> Answer
    requires { v.number ≡ 0 → InRange list_inputs smaller_rows n k (rows_of masks.now values.now words.now) }
    ensures { result ≡ and_then v (verdict (bad_row_check n k (rows_of masks.now values.now words.now) ∷ [])) }
{
    if v.number != 0 {
        return v;
    }
    flat_rows::rows_formed(n, k, masks, values, words)
}

// 6 and 7 after an earlier answer: a refusal is handed on, and no row is looked at.
pub fn then_disjoint(
    v: Answer,
    n: usize,
    k: usize,
    masks: &[u32],
    values: &[u32],
    words: &[u32],
) -> Answer
    requires { v.number ≡ 0 → InRange list_inputs smaller_rows n k (rows_of masks.now values.now words.now) }
    ensures { let rs = rows_of masks.now values.now words.now in
        result ≡ and_then v (verdict (bad_row_check n k rs ∷ share_check n rs ∷ [])) }
{
    if v.number != 0 {
        return v;
    }
    let formed = flat_rows::rows_formed(n, k, masks, values, words);
    shared_points::then_apart(formed, masks, values)
}

// What every operation that works a block out asks of its rows: 6, 7, 11.
pub fn then_rows(
    v: Answer,
    n: usize,
    k: usize,
    masks: &[u32],
    values: &[u32],
    words: &[u32],
) -> Answer
    requires { v.number ≡ 0 → InRange list_inputs smaller_rows n k (rows_of masks.now values.now words.now) }
    ensures { result ≡ and_then v (verdict (row_checks n k (rows_of masks.now values.now words.now))) }
{
    let apart = then_disjoint(v, n, k, masks, values, words);
    driven_columns::then_driven(apart, k, words)
}

// The verdict on a single shift value of a list.
pub fn row_value_verdict(
    n: usize,
    k: usize,
    block_type: usize,
    t: usize,
    masks: &[u32],
    values: &[u32],
    words: &[u32],
) -> Answer
    ensures { result ≡ row_value_verdict n k block_type t (rows_of masks.now values.now words.now) }
{
    let sizes = shared_checks::sizes(LIST_INPUTS, n, k, block_type);
    let below = t < shared_checks::size_of(n);
    let point = shared_checks::then_where(sizes, !below, 3, 0, 0);
    let count = then_count(point, GIVEN_ROWS, masks, values, words);
    then_rows(count, n, k, masks, values, words)
}

// The verdict on filling a table of which `room` entries are lent.
pub fn fill_verdict(
    n: usize,
    k: usize,
    block_type: usize,
    masks: &[u32],
    values: &[u32],
    words: &[u32],
    room: usize,
) -> Answer
    ensures { result ≡ fill_verdict n k block_type (rows_of masks.now values.now words.now) room }
{
    let sizes = shared_checks::sizes(TABLE_INPUTS, n, k, block_type);
    let count = then_count(sizes, SMALLER_ROWS, masks, values, words);
    let short = room < shared_checks::size_of(n);
    let lent = shared_checks::then_where(count, short, 5, 0, 0);
    then_rows(lent, n, k, masks, values, words)
}

// The verdict on the row method, but for 9; `short` says that the lent room is too short.
pub fn method_checked(
    n: usize,
    k: usize,
    block_type: usize,
    w: usize,
    masks: &[u32],
    values: &[u32],
    words: &[u32],
    short: bool,
) -> Answer
    ensures { result ≡ verdict (method_checked n k block_type w (rows_of masks.now values.now words.now) short) }
{
    let sizes = shared_checks::sizes(LIST_INPUTS, n, k, block_type);
    let weight = shared_checks::then_where(sizes, shared_checks::is_outside(1, n, w), 3, 0, 0);
    let count = then_count(weight, GIVEN_ROWS, masks, values, words);
    let lent = shared_checks::then_where(count, short, 5, 0, 0);
    then_rows(lent, n, k, masks, values, words)
}

// The verdict on why t was not taken, with weight limit w.
pub fn why_verdict(
    n: usize,
    k: usize,
    block_type: usize,
    w: usize,
    t: usize,
    masks: &[u32],
    values: &[u32],
    words: &[u32],
) -> Answer
    ensures { result ≡ why_verdict n k block_type w t (rows_of masks.now values.now words.now) }
{
    let sizes = shared_checks::sizes(LIST_INPUTS, n, k, block_type);
    let weight = shared_checks::then_where(sizes, shared_checks::is_outside(1, n, w), 3, 0, 0);
    let below = t < shared_checks::size_of(n);
    let point = shared_checks::then_where(weight, !below, 3, 0, 0);
    let count = then_count(point, GIVEN_ROWS, masks, values, words);
    then_rows(count, n, k, masks, values, words)
}

// The verdict on joining: a list has no type there, and one that leaves a column undriven is joined.
pub fn join_verdict(n: usize, k: usize, masks: &[u32], values: &[u32], words: &[u32]) -> Answer
    ensures { result ≡ join_verdict n k (rows_of masks.now values.now words.now) }
{
    let sizes = shared_checks::sizes(LIST_INPUTS, n, k, FD);
    let count = then_count(sizes, SMALLER_ROWS, masks, values, words);
    then_disjoint(count, n, k, masks, values, words)
}

// The verdict on disjoining, but for 14, where `room` rows are lent: rows may share points there.
pub fn disjoin_checked(
    n: usize,
    k: usize,
    masks: &[u32],
    values: &[u32],
    words: &[u32],
    room: usize,
) -> Answer
    ensures { result ≡ verdict (disjoin_checked n k (rows_of masks.now values.now words.now) room) }
{
    let size = shared_checks::sizes(LIST_INPUTS, n, k, FD);
    let count = then_count(size, GIVEN_ROWS, masks, values, words);
    let short = room < GIVEN_ROWS;
    let lent = shared_checks::then_where(count, short, 5, 0, 0);
    then_formed(lent, n, k, masks, values, words)
}
