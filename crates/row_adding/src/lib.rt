// Rows added to a list that lies at the front of three flat slices, masks, values and words: one row, and what becomes of a row at a
// step. Every function here is inner.
#![tactic(auto)]

ghost use Rattle.std.specs.Prelude.{[], ◌∷◌, ◌+◌, ◌*◌, ◌<◌};
ghost use Rattle.block.specs.Limits.{list_inputs, smaller_rows};
ghost use Rattle.block.specs.Rows.{split_row};
ghost use Rattle.row_adding.specs.Held.{Added, Room};

use block::{Row, SMALLER_ROWS};

// Adds a row to the list, and answers the new length. Past SMALLER_ROWS rows nothing is stored.
pub fn add_row(
    r: Row,
    count: usize,
    masks: &mut [u32],
    values: &mut [u32],
    words: &mut [u32],
) -> usize
    requires { (count < smaller_rows * 2) × Room masks.old values.old words.old }
    ensures { Added count (r ∷ []) masks.old values.old words.old masks.new values.new words.new result }
{
    if SMALLER_ROWS <= count {
        return count + 1;
    }
    masks[count] = r.mask;
    values[count] = r.values;
    words[count] = r.word;
    count + 1
}

// Adds what becomes of a row: its two halves, the 0 half first, or the row itself, after the flips of v.
pub fn add_split(
    k: usize,
    v: u32,
    r: Row,
    count: usize,
    masks: &mut [u32],
    values: &mut [u32],
    words: &mut [u32],
) -> usize
    requires { (k < list_inputs) × (count + 1 < smaller_rows * 2) × Room masks.old values.old words.old }
    ensures { Added count (split_row k v r) masks.old values.old words.old masks.new values.new words.new result }
{
    if row_halves::is_split(k, v, r.mask) {
        let first = row_halves::flipped_half(k, v, 0, r);
        let next = add_row(first, count, masks, values, words);
        let second = row_halves::flipped_half(k, v, 1, r);
        return add_row(second, next, masks, values, words);
    }
    let s = row_halves::flip_row(k, v, r);
    add_row(s, count, masks, values, words)
}
