// What writing row text is made of: the checks in their order, and the text, put into a lent slice line by line. All functions here
// are inner: the operation is `write_text` of the crate writing.
#![tactic(auto)]

ghost use Rattle.std.specs.Prelude.{◌≡◌, ◌&&◌, [], ◌∷◌, ◌++◌, ◌+◌, ◌≤◌, eqb, length};
ghost use Rattle.block.specs.Limits.{list_inputs};
ghost use Rattle.block.specs.Words.{fr, rows_of};
ghost use Rattle.block.specs.Refusals.{check, verdict, typed_checks};
ghost use Rattle.block.specs.Text.{head_line, type_lines, text_of, write_verdict};
ghost use Rattle.put_bytes.specs.Puts.{Put};

use block::{Answer, FR, GIVEN_ROWS, LIST_INPUTS, TEXT_ROOM};

// Whether type fr is to be written without its line.
pub fn lacks_line(block_type: usize, type_line: usize) -> bool
    ensures { result ≡ eqb block_type fr && eqb type_line 0 }
{
    block_type == FR && type_line == 0
}

// The first checks of writing: 1, 2, and 3 for another type number, or for fr without its line.
pub fn type_checks(n: usize, k: usize, block_type: usize, type_line: usize) -> Answer
    ensures { result ≡ verdict (typed_checks list_inputs n k block_type (check (eqb block_type fr && eqb type_line 0) 3 0 0 ∷ [])) }
{
    let size = shared_checks::sizes(LIST_INPUTS, n, k, block_type);
    let lacks = lacks_line(block_type, type_line);
    shared_checks::then_where(size, lacks, 3, 0, 0)
}

// The checks of writing: 1, 2, 3, 4, 5 and 6.
pub fn write_checks(
    n: usize,
    k: usize,
    block_type: usize,
    type_line: usize,
    masks: &[u32],
    values: &[u32],
    words: &[u32],
    room: usize,
) -> Answer
    ensures { result ≡ write_verdict n k block_type type_line (rows_of masks.now values.now words.now) room }
{
    let size = type_checks(n, k, block_type, type_line);
    if size.number != 0 {
        return size;
    }
    let count = flat_rows::row_count(masks, values, words);
    if shared_checks::is_outside(1, GIVEN_ROWS, count) {
        return shared_checks::refuse(4, 0, 0);
    }
    if room < TEXT_ROOM {
        return shared_checks::refuse(5, 0, 0);
    }
    let bad = flat_rows::first_bad_row(n, k, masks, values, words);
    shared_checks::refuse_where(bad < count, 6, 0, bad)
}

// Puts a heading: a dot, its letter, a space, the number and LF.
#[tactic(auto, unfolding(block::specs::Text::head_line))]
pub fn put_heading(out: &mut [u8], at: usize, letter: u8, v: usize) -> usize
    requires { at + length (head_line letter v) ≤ length out.old }
    ensures { Put out.old at (head_line letter v) out.new result }
{
    let a = put_bytes::put_byte(out, at, 46);
    let b = put_bytes::put_byte(out, a, letter);
    let c = put_bytes::put_byte(out, b, 32);
    let d = put_bytes::put_decimal(out, c, v);
    put_bytes::put_byte(out, d, 10)
}

// Puts the type line, where it is to stand.
pub fn put_type_line(out: &mut [u8], at: usize, block_type: usize, type_line: usize) -> usize
    requires { at + length (type_lines block_type type_line) ≤ length out.old }
    ensures { Put out.old at (type_lines block_type type_line) out.new result }
{
    if type_line == 0 {
        return at;
    }
    if block_type == FR {
        return put_bytes::put_bytes(out, at, b".type fr\n");
    }
    put_bytes::put_bytes(out, at, b".type fd\n")
}

// Puts the headings at the front, with the type line where it is to stand.
pub fn put_headings(
    out: &mut [u8],
    n: usize,
    k: usize,
    block_type: usize,
    type_line: usize,
    count: usize,
) -> usize
    requires { length (head_line 105 n ++ head_line 111 k ++ type_lines block_type type_line ++ head_line 112 count) ≤ length out.old }
    ensures { Put out.old 0 (head_line 105 n ++ head_line 111 k ++ type_lines block_type type_line ++ head_line 112 count) out.new result }
{
    let a = put_heading(out, 0, 105, n);
    let b = put_heading(out, a, 111, k);
    let c = put_type_line(out, b, block_type, type_line);
    put_heading(out, c, 112, count)
}

// Puts the text of a list at the front.
pub fn put_text(
    out: &mut [u8],
    n: usize,
    k: usize,
    block_type: usize,
    type_line: usize,
    masks: &[u32],
    values: &[u32],
    words: &[u32],
) -> usize
    requires words_in_bounds { length (text_of n k block_type type_line (rows_of masks.now values.now words.now)) ≤ length out.old }
    requires values_len { (length values.now ≡ length masks.now) × (length words.now ≡ length masks.now) }
    ensures { Put out.old 0 (text_of n k block_type type_line (rows_of masks.now values.now words.now)) out.new result }
{
    let a = put_headings(out, n, k, block_type, type_line, masks.len());
    let b = put_bytes::put_rows(out, a, n, k, masks.len(), masks, values, words);
    put_bytes::put_bytes(out, b, b".e\n")
}
