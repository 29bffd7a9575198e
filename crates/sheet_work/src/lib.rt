// The work of the sheet: the row method in working storage, and the sheet's text from what it leaves there. The answer has the measures
// and the number of smaller rows too, for the line of a bulk import. The function here is inner.
#![tactic(auto)]

ghost use Rattle.std.specs.Prelude.{◌≡◌, length};
ghost use Rattle.block.specs.Words.{missing, rows_of};
ghost use Rattle.block.specs.Refusals.{stored};
ghost use Rattle.block.specs.Sheet.{sheet_text, sheet_verdict};
ghost use Rattle.sheet_work.specs.Work.{sheet_work};

use block::{LIST_INPUTS, SHEET_ROOM, SMALLER_ROWS, SheetWork};

// Writes the sheet of the rows with weight limit w to the front of out, or refuses.
pub fn make_sheet(
    n: usize,
    k: usize,
    block_type: usize,
    w: usize,
    masks: &[u32],
    values: &[u32],
    words: &[u32],
    out: &mut [u8],
) -> SheetWork
    ensures value { result ≡ sheet_work n k block_type w (rows_of masks.now values.now words.now) (length out.old) }
    ensures out_after { let rs = rows_of masks.now values.now words.now in
        out.new ≡ stored (sheet_verdict n k block_type w rs (length out.old)) (sheet_text (missing block_type) n k w rs) out.old }
{
    let mut basis = [0u32; LIST_INPUTS];
    let mut sigma = [0u32; LIST_INPUTS];
    let mut smaller_masks = [0u32; SMALLER_ROWS];
    let mut smaller_values = [0u32; SMALLER_ROWS];
    let mut smaller_words = [0u32; SMALLER_ROWS];
    let short = out.len() < SHEET_ROOM;
    let r = row_work::method_rows(
        n,
        k,
        block_type,
        w,
        masks,
        values,
        words,
        short,
        &mut basis,
        &mut sigma,
        &mut smaller_masks,
        &mut smaller_values,
        &mut smaller_words,
    );
    if r.number != 0 {
        return SheetWork {
            number: r.number,
            a: r.a,
            b: r.b,
            before: 0,
            after: 0,
            rows: 0,
            count: 0,
        };
    }
    let count = put_sheet::put_sheet(
        out,
        n,
        k,
        w,
        r.before as usize,
        r.after as usize,
        &basis[..n],
        &sigma[..n],
        r.count,
        &smaller_masks,
        &smaller_values,
        &smaller_words,
    );
    SheetWork {
        number: r.number,
        a: r.a,
        b: r.b,
        before: r.before,
        after: r.after,
        rows: r.count,
        count,
    }
}
