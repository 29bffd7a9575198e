// The work of a text where the program prints its rows joined (02, Ticket 9): the rows that the text says are joined in working storage and
// written as row text, of the text's type and with its type line where that stands. Joining makes no more rows than there were, keeps one
// and makes none malformed, so that writing never refuses what joining has answered. All functions here are inner.
#![tactic(auto)]

ghost use Rattle.std.specs.Prelude.{◌≡◌, ◌≤◌, length};
ghost use Rattle.block.specs.Limits.{text_room};
ghost use Rattle.block.specs.Words.{rows_of};
ghost use Rattle.block.specs.Refusals.{and_then, stored};
ghost use Rattle.block.specs.Text.{text_of, write_verdict, with_bytes};
ghost use Rattle.block.specs.Joins.{joined, join_verdict};
ghost use Rattle.join_text_work.specs.Work.{join_in_verdict, join_in};

use block::{GIVEN_ROWS, READ_BYTES, TextAnswer};

// Joins the rows of a list in place and writes what is left of them as row text to the front of out, or refuses.
pub fn join_list(
    n: usize,
    k: usize,
    block_type: usize,
    type_line: usize,
    masks: &mut [u32],
    values: &mut [u32],
    words: &mut [u32],
    out: &mut [u8],
) -> TextAnswer
    ensures result_value { let rs = rows_of masks.old values.old words.old in
        let verdict = and_then (join_verdict n k rs) (write_verdict n k block_type type_line (joined rs) (length out.old)) in
        result ≡ with_bytes verdict (text_of n k block_type type_line (joined rs)) }
    ensures out_after { let rs = rows_of masks.old values.old words.old in
        let verdict = and_then (join_verdict n k rs) (write_verdict n k block_type type_line (joined rs) (length out.old)) in
        out.new ≡ stored verdict (text_of n k block_type type_line (joined rs)) out.old }
{
    let j = joining::join_rows(n, k, masks, values, words);
    if j.number != 0 {
        return TextAnswer {
            number: j.number,
            a: j.a,
            b: j.b,
            count: 0,
        };
    }
    text_work::write_rows(
        n, k, block_type, type_line, j.count, masks, values, words, out,
    )
}

// Writes the joined rows of a text to the front of out, or refuses.
pub fn join_text(input: &[u8], out: &mut [u8]) -> TextAnswer
    requires { text_room ≤ length out.old }
    ensures value { result ≡ with_bytes (join_in_verdict input.now) (join_in input.now) }
    ensures out_after { out.new ≡ stored (join_in_verdict input.now) (join_in input.now) out.old }
{
    let text = read_bytes::first_bytes(input, READ_BYTES);
    let mut masks = [0u32; GIVEN_ROWS];
    let mut values = [0u32; GIVEN_ROWS];
    let mut words = [0u32; GIVEN_ROWS];
    let reading = reading::read_text(text, &mut masks, &mut values, &mut words);
    match reading {
        Err(r) => {
            let kind = r.kind;
            TextAnswer {
                number: read_kinds::kind_number(kind),
                a: r.a,
                b: r.b,
                count: 0,
            }
        }
        Ok(h) => {
            let count = h.count;
            join_list(
                h.n,
                h.k,
                h.block_type,
                h.type_line,
                &mut masks[..count],
                &mut values[..count],
                &mut words[..count],
                out,
            )
        }
    }
}
