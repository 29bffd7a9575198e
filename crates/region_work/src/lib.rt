// From a list of rows that may overlap to a disjoint one (02, Ticket 10): the whole space is halved until each region lies inside every row that
// meets it. The rows lie in three flat slices. Every function here is inner.
#![tactic(auto)]

ghost use Rattle.std.specs.Prelude.{◌≡◌, [], ◌∷◌, ◌≤◌, suc, length};
ghost use Rattle.block.specs.Limits.{list_inputs, given_rows};
ghost use Rattle.block.specs.Overlaps.{region_rows};
ghost use Rattle.pair_laws.specs.Cube.{Sound};
ghost use Rattle.pair_laws.specs.Theorem.{Every};
ghost use Rattle.flat_rows.specs.Listing.{rows_from};
ghost use Rattle.region_work.specs.Put.{Space, Put};
ghost use Rattle.region_work.specs.Meet.{Says};
ghost use Rattle.region_work.specs.Whole.{DisjointPut};

use block::{GIVEN_ROWS, Row};

// What the rows that meet a region say of it: how many there are, the inputs that they fix, and the OR of their words.
#[derive(Clone, Copy)]
pub struct Met {
    pub rows: usize,
    pub fixed: u32,
    pub word: u32,
}

// What the rows that meet the region q say of it.
pub fn meet_rows(q: Row, masks: &[u32], values: &[u32], words: &[u32]) -> Met
    requires { (length values.now ≡ length masks.now) × (length words.now ≡ length masks.now) }
    ensures { Says q masks.now values.now words.now (length masks.now) result.rows result.fixed result.word }
{
    let mut rows: usize = 0;
    let mut fixed: u32 = 0;
    let mut word: u32 = 0;
    for i in 0..masks.len() {
        if shared_points::meet(q.mask, q.values, masks[i], values[i]) {
            rows += 1;
            fixed |= masks[i];
            word |= words[i];
        }
    }
    Met { rows, fixed, word }
}

// Puts a row at the end of a list, and answers the new length. Past GIVEN_ROWS rows nothing is stored.
pub fn put_piece(
    r: Row,
    count: usize,
    masks: &mut [u32],
    values: &mut [u32],
    words: &mut [u32],
) -> usize
    requires { Space masks.old values.old words.old }
    ensures { Put count (r ∷ []) masks.old values.old words.old masks.new values.new words.new result }
{
    if GIVEN_ROWS <= count {
        return GIVEN_ROWS + 1;
    }
    masks[count] = r.mask;
    values[count] = r.values;
    words[count] = r.word;
    count + 1
}

// Puts what the region q gives at the end of a list, and answers the new length, GIVEN_ROWS + 1 where it passes that. A region that no row meets
// gives nothing, one inside every row that meets it one row; any other is halved, and a half has one free input fewer. Where the list has too many
// rows already no region is looked at.
pub fn put_region(
    n: usize,
    q: Row,
    masks: &[u32],
    values: &[u32],
    words: &[u32],
    count: usize,
    out_masks: &mut [u32],
    out_values: &mut [u32],
    out_words: &mut [u32],
) -> usize
    requires n_le_list_inputs { (n ≤ list_inputs) × (count ≤ suc given_rows) × Sound n q × Space out_masks.old out_values.old out_words.old }
    requires values_len { (length values.now ≡ length masks.now) × (length words.now ≡ length masks.now) × Every (Sound n) (rows_from (length masks.now) masks.now values.now words.now) }
    ensures { Put count (region_rows n (rows_from (length masks.now) masks.now values.now words.now) q) out_masks.old out_values.old out_words.old out_masks.new out_values.new out_words.new result }
{
    if GIVEN_ROWS < count {
        return count;
    }
    let m = meet_rows(q, masks, values, words);
    if m.rows == 0 {
        return count;
    }
    let undecided = m.fixed ^ (m.fixed & q.mask);
    if undecided == 0 {
        let r = Row {
            mask: q.mask,
            values: q.values,
            word: m.word,
        };
        return put_piece(r, count, out_masks, out_values, out_words);
    }
    let h = exchanges::highest_bit(n, undecided);
    let low = row_halves::half_row(h, 0, q);
    let next = put_region(
        n, low, masks, values, words, count, out_masks, out_values, out_words,
    );
    let high = row_halves::half_row(h, 1, q);
    put_region(
        n, high, masks, values, words, next, out_masks, out_values, out_words,
    )
}

// The disjoint list of the given rows, written to the front of three slices, and its length; where it has more than GIVEN_ROWS rows, the answer is
// more than that, and nothing is written.
pub fn put_disjoint(
    n: usize,
    masks: &[u32],
    values: &[u32],
    words: &[u32],
    out_masks: &mut [u32],
    out_values: &mut [u32],
    out_words: &mut [u32],
) -> usize
    requires n_le_list_inputs { (n ≤ list_inputs) × Space out_masks.old out_values.old out_words.old }
    requires values_len { (length values.now ≡ length masks.now) × (length words.now ≡ length masks.now) × Every (Sound n) (rows_from (length masks.now) masks.now values.now words.now) }
    ensures { DisjointPut n (rows_from (length masks.now) masks.now values.now words.now) out_masks.old out_values.old out_words.old out_masks.new out_values.new out_words.new result }
{
    let mut new_masks = [0u32; GIVEN_ROWS];
    let mut new_values = [0u32; GIVEN_ROWS];
    let mut new_words = [0u32; GIVEN_ROWS];
    let whole = Row {
        mask: 0,
        values: 0,
        word: 0,
    };
    let count = put_region(
        n,
        whole,
        masks,
        values,
        words,
        0,
        &mut new_masks,
        &mut new_values,
        &mut new_words,
    );
    if GIVEN_ROWS < count {
        return count;
    }
    moved_rows::put_list(
        count,
        &new_masks,
        &new_values,
        &new_words,
        out_masks,
        out_values,
        out_words,
    );
    count
}
