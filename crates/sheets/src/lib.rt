// The sheet (01, the section of that name). One operation: `sheet` makes the sheet of a list of rows, which lies in three flat slices,
// and a weight limit, writes it to the front of a lent slice, and answers the number of bytes; or it refuses, and then the slice holds
// what it held. This crate holds nothing else: what the operation is made of stands in the crates below it.
#![tactic(auto)]

ghost use Rattle.block.specs.Words.{rows_of};
ghost use Rattle.promises.specs.Sheets.{SheetPromise};

use block::TextAnswer;

// Writes the sheet of the rows with weight limit w to the front of out. Refuses with 1, 2, 3 (the type, w), 4, 5 (17,518 bytes),
// 6, 7, 11 and 9.
pub fn sheet(
    n: usize,
    k: usize,
    block_type: usize,
    w: usize,
    masks: &[u32],
    values: &[u32],
    words: &[u32],
    out: &mut [u8],
) -> TextAnswer
    ensures { SheetPromise n k block_type w (rows_of masks.now values.now words.now)
        out.old result out.new }
{
    let r = sheet_work::make_sheet(n, k, block_type, w, masks, values, words, out);
    TextAnswer {
        number: r.number,
        a: r.a,
        b: r.b,
        count: r.count,
    }
}
