// The operations on lists of rows (01, Numbers that come back), for rows in three flat slices: `row_value` answers a single shift value,
// `row_method` gives T, sigma and the smaller rows, and `fill_table` fills a table. The type says what a missing point means. Each answers
// for every input, and on a refusal what was lent holds what it held. This crate holds nothing else: what the operations are made of
// stands in the crates below it.
#![tactic(auto)]

ghost use Rattle.block.specs.Words.{rows_of};
ghost use Rattle.promises.specs.Lent.{lent_flat};
ghost use Rattle.promises.specs.Lists.{RowValuePromise, RowMethodPromise, FillPromise};

use block::{Answer, RowMethodAnswer, SMALLER_ROWS, ValueAnswer};

// R(t) of a list. Refuses with 1, 2, 3 (the type, t), 4, 6, 7 and 11.
pub fn row_value(
    n: usize,
    k: usize,
    block_type: usize,
    t: usize,
    masks: &[u32],
    values: &[u32],
    words: &[u32],
) -> ValueAnswer
    ensures { RowValuePromise n k block_type t (rows_of masks.now values.now words.now) result }
{
    let missing = shared_checks::missing_word(block_type);
    let v = row_checks::row_value_verdict(n, k, block_type, t, masks, values, words);
    if v.number != 0 {
        return ValueAnswer::from(v);
    }
    let value = row_shifts::shift_of_rows(n, masks, values, words, missing, t as u32);
    ValueAnswer {
        value: value as u64,
        ..ValueAnswer::from(v)
    }
}

// Fills the table of a list, of up to 512 rows. Refuses with 1, 2, 3 (the type), 4, 5 (2^n entries), 6, 7 and 11.
pub fn fill_table(
    n: usize,
    k: usize,
    block_type: usize,
    masks: &[u32],
    values: &[u32],
    words: &[u32],
    table: &mut [u16],
) -> Answer
    ensures { FillPromise n k block_type (rows_of masks.now values.now words.now)
        table.old result table.new }
{
    let missing = shared_checks::missing_word(block_type);
    let v = row_checks::fill_verdict(n, k, block_type, masks, values, words, table.len());
    if v.number != 0 {
        return v;
    }
    filling::fill_rows(n, masks, values, words, missing, table);
    v
}

// T, sigma, the smaller rows and both measures of a list, with weight limit w. Of the three slices for the smaller rows the shortest is
// the room. Refuses with 1, 2, 3 (the type, w), 4, 5 (n numbers for each matrix, 512 rows), 6, 7, 11 and 9.
pub fn row_method(
    n: usize,
    k: usize,
    block_type: usize,
    w: usize,
    masks: &[u32],
    values: &[u32],
    words: &[u32],
    basis: &mut [u32],
    sigma: &mut [u32],
    smaller_masks: &mut [u32],
    smaller_values: &mut [u32],
    smaller_words: &mut [u32],
) -> RowMethodAnswer
    ensures { RowMethodPromise n k block_type w (rows_of masks.now values.now words.now)
        (lent_flat smaller_masks.old smaller_values.old smaller_words.old
        smaller_masks.new smaller_values.new smaller_words.new)
        basis.old sigma.old result basis.new sigma.new }
{
    let room = flat_rows::least_room(
        smaller_masks.len(),
        smaller_values.len(),
        smaller_words.len(),
    );
    let short = shared_checks::is_short(n, basis.len(), sigma.len(), SMALLER_ROWS, room);
    row_work::method_rows(
        n,
        k,
        block_type,
        w,
        masks,
        values,
        words,
        short,
        basis,
        sigma,
        smaller_masks,
        smaller_values,
        smaller_words,
    )
}
