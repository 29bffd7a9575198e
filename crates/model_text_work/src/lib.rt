// The work of a text where the program prints a model (02, Ticket 4): the model of the rows that the text says, with the weight limit of
// the sheet. All functions here are inner.
#![tactic(auto)]

ghost use Rattle.std.specs.Prelude.{◌≡◌, ◌≤◌, min, length};
ghost use Rattle.block.specs.Limits.{model_room};
ghost use Rattle.block.specs.Words.{missing};
ghost use Rattle.block.specs.Refusals.{stored};
ghost use Rattle.block.specs.Text.{with_bytes};
ghost use Rattle.block.specs.Model.{model_text, model_verdict, write_model};
ghost use Rattle.text_work.specs.Work.{first_rows};
ghost use Rattle.model_text_work.specs.Work.{model_in_verdict, model_in};

use block::{GIVEN_ROWS, READ_BYTES, TextAnswer};

// Writes the model of the list of the first `count` rows in storage, of a type, to the front of out, or refuses.
pub fn model_rows(
    n: usize,
    k: usize,
    block_type: usize,
    count: usize,
    masks: &[u32],
    values: &[u32],
    words: &[u32],
    out: &mut [u8],
) -> TextAnswer
    requires { (count ≤ length masks.now) × (count ≤ length values.now) × (count ≤ length words.now) }
    ensures result_value { let rs = first_rows count masks.now values.now words.now in
        result ≡ write_model n k block_type (min 3 n) rs (length out.old) }
    ensures out_after { let rs = first_rows count masks.now values.now words.now in
        let verdict = model_verdict n k block_type (min 3 n) rs (length out.old) in
        out.new ≡ stored verdict (model_text (missing block_type) n k (min 3 n) rs) out.old }
{
    let w = text_work::weight_limit(n);
    model_work::make_model(
        n,
        k,
        block_type,
        w,
        &masks[..count],
        &values[..count],
        &words[..count],
        out,
    )
}

// Writes the model of a text to the front of out, or refuses.
pub fn model_text(input: &[u8], out: &mut [u8]) -> TextAnswer
    requires { length out.old ≡ model_room }
    ensures value { result ≡ with_bytes (model_in_verdict input.now) (model_in input.now) }
    ensures out_after { out.new ≡ stored (model_in_verdict input.now) (model_in input.now) out.old }
{
    let text = read_bytes::first_bytes(input, READ_BYTES);
    let mut masks = [0u32; GIVEN_ROWS];
    let mut values = [0u32; GIVEN_ROWS];
    let mut words = [0u32; GIVEN_ROWS];
    let reading = reading::read_text(text, &mut masks, &mut values, &mut words);
    match reading {
        Err(r) => {
            let kind = r.kind;
            TextAnswer {
                number: read_kinds::kind_number(kind),
                a: r.a,
                b: r.b,
                count: 0,
            }
        }
        Ok(h) => model_rows(
            h.n,
            h.k,
            h.block_type,
            h.count,
            &masks,
            &values,
            &words,
            out,
        ),
    }
}
