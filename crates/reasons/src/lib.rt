// Why wasn't my combination taken? (02, Ticket 7.) One operation, for rows in three flat slices: `why_not` answers for a number t the first
// of these that holds: t is 0; t is over the weight limit; t was taken, at this step; t is the XOR of the numbers taken at the steps of this
// set, each of which stands before t. The list is not moved, so one that the row method refuses with 9 has its answer here. It answers for
// every input, and on a refusal what was lent holds what it held. This crate holds nothing else.
#![tactic(auto)]

ghost use Rattle.block.specs.Words.{rows_of};
ghost use Rattle.block.specs.Reasons.{why_numbers};
ghost use Rattle.promises.specs.Reasons.{WhyNotPromise};

use block::{Answer, LIST_INPUTS, Reason};

// Why t was not taken, with weight limit w; the taken numbers, T by columns, go to the front of `taken`. Refuses with 1, 2, 3 (the type, w,
// t), 4, 6, 7 and 11.
pub fn why_not(
    n: usize,
    k: usize,
    block_type: usize,
    w: usize,
    t: usize,
    masks: &[u32],
    values: &[u32],
    words: &[u32],
    taken: &mut [u32; LIST_INPUTS],
) -> Result<Reason, Answer>
    ensures { WhyNotPromise n k block_type w t (rows_of masks.now values.now words.now)
        taken.old (why_numbers result) taken.new }
{
    let missing = shared_checks::missing_word(block_type);
    let v = row_checks::why_verdict(n, k, block_type, w, t, masks, values, words);
    if v.number != 0 {
        return Err(v);
    }
    let reason = reason_work::find_reason(n, w, t as u32, masks, values, words, missing, taken);
    Ok(reason)
}
