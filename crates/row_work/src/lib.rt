// The row method for any arguments: its checks but 9, and then its work, which says 9 or 0. The function here is inner.
#![tactic(auto)]

ghost use Rattle.std.specs.Prelude.{◌≡◌, false, ◌≤◌, length};
ghost use Rattle.block.specs.Limits.{list_inputs, smaller_rows};
ghost use Rattle.block.specs.Words.{rows_of};
ghost use Rattle.row_work.specs.Method.{MethodDone};

use block::RowMethodAnswer;

// The row method for any arguments; `short` says that the lent room is too short, and is asked for after 4 and before 6.
pub fn method_rows(
    n: usize,
    k: usize,
    block_type: usize,
    w: usize,
    masks: &[u32],
    values: &[u32],
    words: &[u32],
    short: bool,
    basis: &mut [u32],
    sigma: &mut [u32],
    out_masks: &mut [u32],
    out_values: &mut [u32],
    out_words: &mut [u32],
) -> RowMethodAnswer
    requires { short ≡ false → n ≤ list_inputs → (n ≤ length basis.old) × (n ≤ length sigma.old)
        × (smaller_rows ≤ length out_masks.old) × (smaller_rows ≤ length out_values.old) × (smaller_rows ≤ length out_words.old) }
    ensures { MethodDone n k block_type w (rows_of masks.now values.now words.now) short
        basis.old sigma.old out_masks.old out_values.old out_words.old
        basis.new sigma.new out_masks.new out_values.new out_words.new result }
{
    let missing = shared_checks::missing_word(block_type);
    let v = row_checks::method_checked(n, k, block_type, w, masks, values, words, short);
    if v.number != 0 {
        return RowMethodAnswer::from(v);
    }
    let done = smaller_rows::work_rows(
        n, w, masks, values, words, missing, basis, sigma, out_masks, out_values, out_words,
    );
    if done.step != 0 {
        return RowMethodAnswer {
            number: 9,
            a: done.step,
            b: 0,
            before: 0,
            after: 0,
            count: 0,
        };
    }
    RowMethodAnswer {
        number: 0,
        a: 0,
        b: 0,
        before: done.before,
        after: done.after,
        count: done.count,
    }
}
