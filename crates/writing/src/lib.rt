// Row text, written (01, Row text). One operation: `write_text` writes a list of rows, which lies in three flat slices, as row text to
// the front of a lent slice, and answers the number of bytes; or it refuses, and then the slice holds what it held.
// This crate holds nothing else.
#![tactic(auto)]

ghost use Rattle.block.specs.Words.{rows_of};
ghost use Rattle.promises.specs.Texts.{WritePromise};

use block::TextAnswer;

// Writes the rows as text of a type to the front of out, without its type line where `type_line` is 0. Refuses with 1, 2, 3 (the type;
// fr without its line), 4, 5 (4,255 bytes) and 6.
pub fn write_text(
    n: usize,
    k: usize,
    block_type: usize,
    type_line: usize,
    masks: &[u32],
    values: &[u32],
    words: &[u32],
    out: &mut [u8],
) -> TextAnswer
    ensures { WritePromise n k block_type type_line (rows_of masks.now values.now words.now)
        out.old result out.new }
{
    let v = put_text::write_checks(n, k, block_type, type_line, masks, values, words, out.len());
    if v.number != 0 {
        return TextAnswer::from(v);
    }
    let count = put_text::put_text(out, n, k, block_type, type_line, masks, values, words);
    TextAnswer {
        count,
        ..TextAnswer::from(v)
    }
}
