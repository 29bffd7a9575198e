// The work of a text (01, the first section, and The sheet): the weight limit, and the sheet of the rows that the text says, with its
// measures and the number of smaller rows; and the rows at the front of storage as row text, for the work that prints a list. What the programs
// print rests on it. All functions here are inner.
#![tactic(auto)]

ghost use Rattle.std.specs.Prelude.{◌≡◌, ◌≤◌, min, length};
ghost use Rattle.block.specs.Limits.{sheet_room};
ghost use Rattle.block.specs.Words.{missing, rows_of};
ghost use Rattle.block.specs.Refusals.{stored};
ghost use Rattle.block.specs.Sheet.{sheet_text, sheet_verdict};
ghost use Rattle.promises.specs.Texts.{WritePromise};
ghost use Rattle.sheet_work.specs.Work.{sheet_work};
ghost use Rattle.text_work.specs.Work.{first_rows, text_verdict, sheet_in, text_work};

use block::{GIVEN_ROWS, READ_BYTES, SheetWork, TextAnswer};

// The weight limit: 3, or n where n is below 3.
pub fn weight_limit(n: usize) -> usize
    ensures { result ≡ min 3 n }
{
    if n < 3 { n } else { 3 }
}

// Writes the sheet of a list of a type with that weight limit to the front of out, or refuses.
pub fn work_list(
    n: usize,
    k: usize,
    block_type: usize,
    masks: &[u32],
    values: &[u32],
    words: &[u32],
    out: &mut [u8],
) -> SheetWork
    ensures value { result ≡ sheet_work n k block_type (min 3 n) (rows_of masks.now values.now words.now) (length out.old) }
    ensures out_after { let rs = rows_of masks.now values.now words.now in
        out.new ≡ stored (sheet_verdict n k block_type (min 3 n) rs (length out.old)) (sheet_text (missing block_type) n k (min 3 n) rs) out.old }
{
    let w = weight_limit(n);
    sheet_work::make_sheet(n, k, block_type, w, masks, values, words, out)
}

// Writes the sheet of the list of the first `count` rows in storage to the front of out, or refuses.
pub fn work_rows(
    n: usize,
    k: usize,
    block_type: usize,
    count: usize,
    masks: &[u32],
    values: &[u32],
    words: &[u32],
    out: &mut [u8],
) -> SheetWork
    requires { (count ≤ length masks.now) × (count ≤ length values.now) × (count ≤ length words.now) }
    ensures value { result ≡ sheet_work n k block_type (min 3 n) (first_rows count masks.now values.now words.now) (length out.old) }
    ensures out_after { let rs = first_rows count masks.now values.now words.now in
        out.new ≡ stored (sheet_verdict n k block_type (min 3 n) rs (length out.old)) (sheet_text (missing block_type) n k (min 3 n) rs) out.old }
{
    work_list(
        n,
        k,
        block_type,
        &masks[..count],
        &values[..count],
        &words[..count],
        out,
    )
}

// Writes the list of the first `count` rows in storage as row text to the front of out, or refuses.
pub fn write_rows(
    n: usize,
    k: usize,
    block_type: usize,
    type_line: usize,
    count: usize,
    masks: &[u32],
    values: &[u32],
    words: &[u32],
    out: &mut [u8],
) -> TextAnswer
    requires { (count ≤ length masks.now) × (count ≤ length values.now) × (count ≤ length words.now) }
    ensures { WritePromise n k block_type type_line
        (first_rows count masks.now values.now words.now) out.old result out.new }
{
    writing::write_text(
        n,
        k,
        block_type,
        type_line,
        &masks[..count],
        &values[..count],
        &words[..count],
        out,
    )
}

// Writes the sheet of a text to the front of out, or refuses.
pub fn work_text(input: &[u8], out: &mut [u8]) -> SheetWork
    requires { sheet_room ≤ length out.old }
    ensures value { result ≡ text_work input.now }
    ensures out_after { out.new ≡ stored (text_verdict input.now) (sheet_in input.now) out.old }
{
    let text = read_bytes::first_bytes(input, READ_BYTES);
    let mut masks = [0u32; GIVEN_ROWS];
    let mut values = [0u32; GIVEN_ROWS];
    let mut words = [0u32; GIVEN_ROWS];
    let reading = reading::read_text(text, &mut masks, &mut values, &mut words);
    match reading {
        Err(r) => {
            let kind = r.kind;
            SheetWork {
                number: read_kinds::kind_number(kind),
                a: r.a,
                b: r.b,
                before: 0,
                after: 0,
                rows: 0,
                count: 0,
            }
        }
        Ok(h) => work_rows(
            h.n,
            h.k,
            h.block_type,
            h.count,
            &masks,
            &values,
            &words,
            out,
        ),
    }
}
