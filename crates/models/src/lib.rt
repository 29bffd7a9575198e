// Models in BLIF beside the sheet (02, Ticket 4). Three operations: `write_model` makes the model of a list of rows, which lies in three flat
// slices, and a weight limit; `read_model` reads the subset of BLIF that such models are, into a matrix, the number of patterns of each
// output and the patterns themselves; `model_value` evaluates a model that was read at a point. Each refuses with a number, and then
// everything lent holds what it held. This crate holds nothing else: what the operations are made of stands in the crates below it.
#![tactic(auto)]

ghost use Rattle.block.specs.Words.{rows_of};
ghost use Rattle.block.specs.ModelRead.{patterns_flat};
ghost use Rattle.promises.specs.Models.{WriteModelPromise, ReadModelPromise, ModelValuePromise};

use block::{LIST_INPUTS, ModelAnswer, TextAnswer, ValueAnswer};

// Writes the model of the rows with weight limit w to the front of out. Refuses with 1, 2, 3 (the type, w), 4, 6, 7, 11 and 9, as the row
// method does, and then with 5 where out is shorter than the model.
pub fn write_model(
    n: usize,
    k: usize,
    block_type: usize,
    w: usize,
    masks: &[u32],
    values: &[u32],
    words: &[u32],
    out: &mut [u8],
) -> TextAnswer
    ensures { WriteModelPromise n k block_type w (rows_of masks.now values.now words.now)
        out.old result out.new }
{
    model_work::make_model(n, k, block_type, w, masks, values, words, out)
}

// Reads a model: its matrix by rows, how many patterns each output has, and the patterns of all outputs, one after the other. The room for
// patterns is the shorter of two slices. Refuses with 10 at the first line outside the subset, then with 5, then with 8.
pub fn read_model(
    text: &[u8],
    matrix: &mut [u32],
    counts: &mut [usize],
    masks: &mut [u32],
    values: &mut [u32],
) -> ModelAnswer
    ensures { ReadModelPromise text.now matrix.old counts.old masks.old values.old
        result matrix.new counts.new masks.new values.new }
{
    model_reading::read_lines(text, matrix, counts, masks, values)
}

// The word of a model that was read at the point x. Refuses with 1, 2, 3 (x), 4, 6 (the matrix first) and 8.
pub fn model_value(
    n: usize,
    k: usize,
    x: usize,
    matrix: &[u32],
    counts: &[usize],
    masks: &[u32],
    values: &[u32],
) -> ValueAnswer
    ensures { ModelValuePromise n k x matrix.now counts.now (patterns_flat masks.now values.now) result }
{
    let v = model_values::value_checked(n, k, x, matrix, counts, masks, values);
    if v.number != 0 {
        return ValueAnswer::from(v);
    }
    let mut reached = [0u32; LIST_INPUTS];
    let j = matrix_steps::first_dependent(n, matrix, &mut reached);
    if j < n {
        return ValueAnswer {
            number: 8,
            a: j,
            b: 0,
            value: 0,
        };
    }
    let z = matrix_work::apply_rows(matrix, n, x as u32);
    let word = model_values::driven_word(k, counts, masks, values, z);
    ValueAnswer {
        number: 0,
        a: 0,
        b: 0,
        value: word as u64,
    }
}
