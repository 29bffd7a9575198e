// What the program prints (01, the first section, and The sheet; 02, Tickets 4, 9 and 10). Four functions, each of which looks at the first 8,192
// bytes of a text and writes to the front of lent room: `print_text` the sheet of the text's rows and `print_model` their model in BLIF, both with
// weight limit 3, or n where n is below 3, and as row text `print_joined` the rows joined and `print_disjoint` the disjoint list of rows that may
// share points; or the one line "refused N A B". Each answers the number of bytes. This crate holds nothing else.
#![tactic(auto)]

ghost use Rattle.promises.specs.Joins.{PrintJoinPromise};
ghost use Rattle.promises.specs.Models.{PrintModelPromise};
ghost use Rattle.promises.specs.Overlaps.{PrintDisjointPromise};
ghost use Rattle.promises.specs.Sheets.{PrintPromise};

use block::{MODEL_ROOM, SHEET_ROOM, TEXT_ROOM};

// Prints the sheet of a text, or the line that says why not: every byte, and how many.
pub fn print_text(input: &[u8], out: &mut [u8; SHEET_ROOM]) -> usize
    ensures { PrintPromise input.now out.old result out.new }
{
    let r = text_work::work_text(input, out);
    if r.number != 0 {
        return put_refusal::put_refusal(out, r.number, r.a, r.b);
    }
    r.count
}

// Prints the model of a text, or the line that says why not: every byte, and how many.
pub fn print_model(input: &[u8], out: &mut [u8; MODEL_ROOM]) -> usize
    ensures { PrintModelPromise input.now out.old result out.new }
{
    let m = model_text_work::model_text(input, out);
    if m.number != 0 {
        return put_refusal::put_refusal(out, m.number, m.a, m.b);
    }
    m.count
}

// Prints the rows of a text joined, or the line that says why not: every byte, and how many.
pub fn print_joined(input: &[u8], out: &mut [u8; TEXT_ROOM]) -> usize
    ensures { PrintJoinPromise input.now out.old result out.new }
{
    let j = join_text_work::join_text(input, out);
    if j.number != 0 {
        return put_refusal::put_refusal(out, j.number, j.a, j.b);
    }
    j.count
}

// Prints the disjoint list of a text, or the line that says why not: every byte, and how many.
pub fn print_disjoint(input: &[u8], out: &mut [u8; TEXT_ROOM]) -> usize
    ensures { PrintDisjointPromise input.now out.old result out.new }
{
    let d = disjoin_text_work::disjoin_text(input, out);
    if d.number != 0 {
        return put_refusal::put_refusal(out, d.number, d.a, d.b);
    }
    d.count
}
