// The work of writing a model in BLIF (02, Ticket 4): the row method in working storage, and the model's text from what it leaves there.
// The room is looked at last, after 9, against this model's own length. The function here is inner.
#![tactic(auto)]

ghost use Rattle.std.specs.Prelude.{◌≡◌, length};
ghost use Rattle.block.specs.Words.{missing, rows_of};
ghost use Rattle.block.specs.Refusals.{stored};
ghost use Rattle.block.specs.Model.{model_text, model_verdict, write_model};

use block::{LIST_INPUTS, SMALLER_ROWS, TextAnswer};

// Writes the model of the rows with weight limit w to the front of out, or refuses.
pub fn make_model(
    n: usize,
    k: usize,
    block_type: usize,
    w: usize,
    masks: &[u32],
    values: &[u32],
    words: &[u32],
    out: &mut [u8],
) -> TextAnswer
    ensures result_value { let rs = rows_of masks.now values.now words.now in
        result ≡ write_model n k block_type w rs (length out.old) }
    ensures out_after { let rs = rows_of masks.now values.now words.now in
        let verdict = model_verdict n k block_type w rs (length out.old) in
        out.new ≡ stored verdict (model_text (missing block_type) n k w rs) out.old }
{
    let mut basis = [0u32; LIST_INPUTS];
    let mut sigma = [0u32; LIST_INPUTS];
    let mut smaller_masks = [0u32; SMALLER_ROWS];
    let mut smaller_values = [0u32; SMALLER_ROWS];
    let mut smaller_words = [0u32; SMALLER_ROWS];
    let r = row_work::method_rows(
        n,
        k,
        block_type,
        w,
        masks,
        values,
        words,
        false,
        &mut basis,
        &mut sigma,
        &mut smaller_masks,
        &mut smaller_values,
        &mut smaller_words,
    );
    if r.number != 0 {
        return TextAnswer {
            number: r.number,
            a: r.a,
            b: r.b,
            count: 0,
        };
    }
    let room = out.len();
    let count = put_model::put_model(
        out,
        n,
        k,
        &sigma[..n],
        r.count,
        &smaller_masks,
        &smaller_values,
        &smaller_words,
    );
    if room < count {
        return TextAnswer {
            number: 5,
            a: 0,
            b: 0,
            count: 0,
        };
    }
    TextAnswer {
        number: 0,
        a: 0,
        b: 0,
        count,
    }
}
