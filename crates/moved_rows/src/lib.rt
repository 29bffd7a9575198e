// A list laid at the front of three slices, and moved there through the steps over the columns of T. Every function here is inner.
#![tactic(auto)]

ghost use Rattle.std.specs.Prelude.{◌≤◌, length};
ghost use Rattle.slices.specs.Places.{at};
ghost use Rattle.block.specs.Limits.{list_inputs, given_rows};
ghost use Rattle.block.specs.Words.{rows_of};
ghost use Rattle.flat_rows.specs.Listing.{Listed, rows_from};
ghost use Rattle.matrix_laws.specs.Reached.{Independent};
ghost use Rattle.row_adding.specs.Held.{Room};
ghost use Rattle.row_steps.specs.Passed.{Replayed};
ghost use Rattle.moved_rows.specs.Put.{ListPut};

use row_steps::Replay;

// The first rows of three slices, written to the front of three others.
pub fn put_list(
    count: usize,
    masks: &[u32],
    values: &[u32],
    words: &[u32],
    out_masks: &mut [u32],
    out_values: &mut [u32],
    out_words: &mut [u32],
)
    requires count_in_bounds { (count ≤ length masks.now) × (count ≤ length values.now) × (count ≤ length words.now) }
    requires count_in_bounds_2 { (count ≤ length out_masks.old) × (count ≤ length out_values.old) × (count ≤ length out_words.old) }
    ensures { ListPut (rows_from count masks.now values.now words.now)
        out_masks.old out_values.old out_words.old
        out_masks.new out_values.new out_words.new }
{
    copying::copy_first(masks, count, out_masks);
    copying::copy_first(values, count, out_values);
    copying::copy_first(words, count, out_words);
}

// The list, laid at the front of three slices of 512 places, and moved through the n steps over the columns of T.
pub fn replay_rows(
    n: usize,
    basis: &[u32],
    masks: &[u32],
    values: &[u32],
    words: &[u32],
    new_masks: &mut [u32],
    new_values: &mut [u32],
    new_words: &mut [u32],
) -> Replay
    requires n_le_list_inputs { (n ≤ list_inputs) × (n ≤ length basis.now) × Independent (at basis.now) n n }
    requires listed { Listed given_rows masks.now values.now words.now }
    requires room { Room new_masks.old new_values.old new_words.old }
    ensures { Replayed n (at basis.now) (rows_of masks.now values.now words.now) new_masks.new new_values.new new_words.new result }
{
    let p = masks.len();
    put_list(p, masks, values, words, new_masks, new_values, new_words);
    row_steps::move_rows(n, basis, p, new_masks, new_values, new_words)
}
