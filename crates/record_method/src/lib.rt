// The work of the row method with records, which is an operation of the crate records: the arrays that the records were copied out to are
// lent as flat slices to the operation of the same name, and so are arrays for the smaller rows, which are then to be copied in (crate
// record_copies). All functions here are inner.
#![tactic(auto)]

ghost use Rattle.std.specs.Prelude.{◌≤◌};
ghost use Rattle.promises.specs.Lists.{RowMethodPromise};
ghost use Rattle.record_copies.specs.Flat.{held_rows, Sized, listed};
ghost use Rattle.record_copies.specs.Yielded.{lent_arrays};

use block::RowMethodAnswer;
use record_copies::FlatRows;

// What the method gives: the smaller rows, their number, and the answer.
#[derive(Drop)]
pub struct SmallerRows {
    pub flat: FlatRows,
    pub count: usize,
    pub answer: RowMethodAnswer,
}

// The smaller rows are stored in the first `room` places of the arrays.
pub fn method_into(
    n: usize,
    k: usize,
    block_type: usize,
    w: usize,
    flat: FlatRows,
    m: usize,
    smaller: FlatRows,
    room: usize,
    basis: &mut [u32],
    sigma: &mut [u32],
) -> SmallerRows
    requires { Sized flat × (m ≤ held_rows) × Sized smaller × (room ≤ held_rows) }
    ensures { RowMethodPromise n k block_type w (listed flat m) (lent_arrays room result.flat result.count)
        basis.old sigma.old result.answer basis.new sigma.new }
{
    let masks = flat.masks;
    let values = flat.values;
    let words = flat.words;
    let mut new_masks = smaller.masks;
    let mut new_values = smaller.values;
    let mut new_words = smaller.words;
    let answer = lists::row_method(
        n,
        k,
        block_type,
        w,
        &masks[..m],
        &values[..m],
        &words[..m],
        basis,
        sigma,
        &mut new_masks[..room],
        &mut new_values[..room],
        &mut new_words[..room],
    );
    let made = FlatRows {
        masks: new_masks,
        values: new_values,
        words: new_words,
    };
    SmallerRows {
        flat: made,
        count: answer.count,
        answer,
    }
}

pub fn method_of(
    n: usize,
    k: usize,
    block_type: usize,
    w: usize,
    flat: FlatRows,
    m: usize,
    room: usize,
    basis: &mut [u32],
    sigma: &mut [u32],
) -> SmallerRows
    requires { Sized flat × (m ≤ held_rows) }
    ensures { RowMethodPromise n k block_type w (listed flat m) (lent_arrays room result.flat result.count)
        basis.old sigma.old result.answer basis.new sigma.new }
{
    let places = record_copies::fits(room);
    let smaller = record_copies::blank();
    method_into(n, k, block_type, w, flat, m, smaller, places, basis, sigma)
}
