// The work of the row method on a list that passed its checks: T, sigma and both measures are found, the rows moved in working storage,
// and the results written out at the end, where the list never passed 512 rows. The function here is inner.
#![tactic(auto)]

ghost use Rattle.std.specs.Prelude.{◌≤◌, length};
ghost use Rattle.block.specs.Limits.{list_inputs, given_rows, smaller_rows};
ghost use Rattle.block.specs.Words.{rows_of};
ghost use Rattle.pair_laws.specs.Theorem.{Disjoint};
ghost use Rattle.flat_rows.specs.Listing.{Listed};
ghost use Rattle.smaller_rows.specs.Work.{RowsWorked};

use block::{LIST_INPUTS, SMALLER_ROWS};

// What the work comes to: the first step, from 1, at which the list passes 512 rows, or 0, both measures and the number of rows.
#[derive(Drop)]
pub struct RowWork {
    pub step: usize,
    pub before: u64,
    pub after: u64,
    pub count: usize,
}

// T, sigma, the smaller rows and both measures of a list that passed the checks; `missing` is the word of a missing point. Nothing lent is
// written before the last step.
pub fn work_rows(
    n: usize,
    w: usize,
    masks: &[u32],
    values: &[u32],
    words: &[u32],
    missing: u32,
    basis: &mut [u32],
    sigma: &mut [u32],
    out_masks: &mut [u32],
    out_values: &mut [u32],
    out_words: &mut [u32],
) -> RowWork
    requires n_le_list_inputs { (n ≤ list_inputs) × (1 ≤ w) × (w ≤ n) × (n ≤ length basis.old) × (n ≤ length sigma.old) }
    requires smaller_rows_in_bounds { (smaller_rows ≤ length out_masks.old) × (smaller_rows ≤ length out_values.old) × (smaller_rows ≤ length out_words.old) }
    requires listed { Listed given_rows masks.now values.now words.now }
    requires disjoint { Disjoint n (rows_of masks.now values.now words.now) }
    ensures { RowsWorked missing n w (rows_of masks.now values.now words.now)
        basis.old sigma.old out_masks.old out_values.old out_words.old
        basis.new sigma.new out_masks.new out_values.new out_words.new result }
{
    let mut t = [0u32; LIST_INPUTS];
    let mut s = [0u32; LIST_INPUTS];
    let measures = row_basis::find_basis(n, w, masks, values, words, missing, &mut t, &mut s);
    let mut new_masks = [0u32; SMALLER_ROWS];
    let mut new_values = [0u32; SMALLER_ROWS];
    let mut new_words = [0u32; SMALLER_ROWS];
    let m = moved_rows::replay_rows(
        n,
        &t,
        masks,
        values,
        words,
        &mut new_masks,
        &mut new_values,
        &mut new_words,
    );
    if m.step != 0 {
        return RowWork {
            step: m.step,
            before: 0,
            after: 0,
            count: 0,
        };
    }
    copying::copy_first(&t, n, basis);
    copying::copy_first(&s, n, sigma);
    moved_rows::put_list(
        m.count,
        &new_masks,
        &new_values,
        &new_words,
        out_masks,
        out_values,
        out_words,
    );
    RowWork {
        step: 0,
        before: measures.before,
        after: measures.after,
        count: m.count,
    }
}
