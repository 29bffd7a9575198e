// The work of why a number was not taken with records, which is an operation of the crate records: the arrays that the records were copied out
// to are lent as flat slices to the operation of the same name (02, Ticket 7). The function here is inner.
#![tactic(auto)]

ghost use Rattle.std.specs.Prelude.{◌≤◌};
ghost use Rattle.block.specs.Reasons.{why_numbers};
ghost use Rattle.promises.specs.Reasons.{WhyNotPromise};
ghost use Rattle.record_copies.specs.Flat.{held_rows, Sized, listed};

use block::{Answer, LIST_INPUTS, Reason};
use record_copies::FlatRows;

// Why t was not taken.
pub fn why_of(
    n: usize,
    k: usize,
    block_type: usize,
    w: usize,
    t: usize,
    flat: FlatRows,
    m: usize,
    taken: &mut [u32; LIST_INPUTS],
) -> Result<Reason, Answer>
    requires { Sized flat × (m ≤ held_rows) }
    ensures { WhyNotPromise n k block_type w t (listed flat m) taken.old (why_numbers result) taken.new }
{
    let masks = flat.masks;
    let values = flat.values;
    let words = flat.words;
    reasons::why_not(
        n,
        k,
        block_type,
        w,
        t,
        &masks[..m],
        &values[..m],
        &words[..m],
        taken,
    )
}
