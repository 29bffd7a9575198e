// The work of a text where the program prints its list made disjoint (02, Ticket 10): the rows that the text says are disjoined into working storage
// and written as row text of type fd, with its type line. A list of type fr is refused, since its missing points have no output and those of a
// list of type fd have word 0. At least one row and at most 128 come out and none is malformed, so that writing never refuses what disjoining has
// answered. All functions here are inner.
#![tactic(auto)]

ghost use Rattle.std.specs.Prelude.{◌≡◌, ◌≤◌, length};
ghost use Rattle.block.specs.Limits.{text_room};
ghost use Rattle.block.specs.Words.{fd, rows_of};
ghost use Rattle.block.specs.Refusals.{stored};
ghost use Rattle.block.specs.Text.{text_of, with_bytes};
ghost use Rattle.block.specs.Overlaps.{disjoined, disjoin_typed_verdict};
ghost use Rattle.disjoin_text_work.specs.Work.{disjoin_in_verdict, disjoin_in};

use block::{FD, FR, GIVEN_ROWS, READ_BYTES, TextAnswer};

// Writes the disjoint list of a list as row text to the front of out, or refuses.
pub fn disjoin_list(
    n: usize,
    k: usize,
    block_type: usize,
    masks: &[u32],
    values: &[u32],
    words: &[u32],
    out: &mut [u8],
) -> TextAnswer
    requires { text_room ≤ length out.old }
    ensures result_value { let rs = rows_of masks.now values.now words.now in
        result ≡ with_bytes (disjoin_typed_verdict n k block_type rs) (text_of n k fd 1 (disjoined n rs)) }
    ensures out_after { let rs = rows_of masks.now values.now words.now in
        out.new ≡ stored (disjoin_typed_verdict n k block_type rs) (text_of n k fd 1 (disjoined n rs)) out.old }
{
    if block_type == FR {
        return TextAnswer {
            number: 3,
            a: 0,
            b: 0,
            count: 0,
        };
    }
    let mut disjoint_masks = [0u32; GIVEN_ROWS];
    let mut disjoint_values = [0u32; GIVEN_ROWS];
    let mut disjoint_words = [0u32; GIVEN_ROWS];
    let d = disjoining::disjoin_rows(
        n,
        k,
        masks,
        values,
        words,
        &mut disjoint_masks,
        &mut disjoint_values,
        &mut disjoint_words,
    );
    if d.number != 0 {
        return TextAnswer {
            number: d.number,
            a: d.a,
            b: d.b,
            count: 0,
        };
    }
    text_work::write_rows(
        n,
        k,
        FD,
        1,
        d.count,
        &disjoint_masks,
        &disjoint_values,
        &disjoint_words,
        out,
    )
}

// Writes the disjoint list of a text to the front of out, or refuses.
pub fn disjoin_text(input: &[u8], out: &mut [u8]) -> TextAnswer
    requires { text_room ≤ length out.old }
    ensures value { result ≡ with_bytes (disjoin_in_verdict input.now) (disjoin_in input.now) }
    ensures out_after { out.new ≡ stored (disjoin_in_verdict input.now) (disjoin_in input.now) out.old }
{
    let text = read_bytes::first_bytes(input, READ_BYTES);
    let mut masks = [0u32; GIVEN_ROWS];
    let mut values = [0u32; GIVEN_ROWS];
    let mut words = [0u32; GIVEN_ROWS];
    let reading = reading::read_text(text, &mut masks, &mut values, &mut words);
    match reading {
        Err(r) => {
            let kind = r.kind;
            TextAnswer {
                number: read_kinds::kind_number(kind),
                a: r.a,
                b: r.b,
                count: 0,
            }
        }
        Ok(h) => {
            let count = h.count;
            disjoin_list(
                h.n,
                h.k,
                h.block_type,
                &masks[..count],
                &values[..count],
                &words[..count],
                out,
            )
        }
    }
}
