// The n steps of a list of rows, one after the other: the rows lie in three flat slices, masks, values and words, the list at their front.
// Every function here is inner.
#![tactic(auto)]

ghost use Rattle.std.specs.Prelude.{◌≤◌, length};
ghost use Rattle.slices.specs.Places.{at};
ghost use Rattle.block.specs.Limits.{list_inputs, smaller_rows};
ghost use Rattle.flat_rows.specs.Listing.{rows_from};
ghost use Rattle.matrix_laws.specs.Reached.{Independent};
ghost use Rattle.row_adding.specs.Held.{Room};
ghost use Rattle.row_steps.specs.Passed.{Replayed};

use block::{LIST_INPUTS, SMALLER_ROWS};

// What a replay of the steps answers: the first step, from 1, at which the list passes SMALLER_ROWS rows, or 0 and the number of rows.
#[derive(Drop)]
pub struct Replay {
    pub step: usize,
    pub count: usize,
}

// The n steps over the columns of T on the list of p rows.
pub fn move_rows(
    n: usize,
    basis: &[u32],
    p: usize,
    masks: &mut [u32],
    values: &mut [u32],
    words: &mut [u32],
) -> Replay
    requires n_le_list_inputs { (n ≤ list_inputs) × (n ≤ length basis.now) × (p ≤ smaller_rows) × Independent (at basis.now) n n }
    requires room { Room masks.old values.old words.old }
    ensures { Replayed n (at basis.now) (rows_from p masks.old values.old words.old) masks.new values.new words.new result }
{
    let mut s = [0u32; LIST_INPUTS];
    matrix_work::put_units(&mut s, n);
    let mut count = p;
    for k in 0..n {
        let m = matrix_steps::advance(&mut s, n, k, basis[k]);
        count = row_splits::step_rows(k, m.partner, m.rest, count, masks, values, words);
        if SMALLER_ROWS < count {
            return Replay {
                step: k + 1,
                count: 0,
            };
        }
    }
    Replay { step: 0, count }
}
