// The operations on lists of rows for a caller that lends the rows as records, one record a row (01, Words and numbers): a single shift
// value, the row method, why a number was not taken, joining, disjoining, filling a table, row text, written and read, the sheet and the model. Each
// takes any numbers and any slices, and answers or refuses as 01 says; its promise speaks of the records themselves. The records are copied out into
// arrays (crate record_copies), the work on these is that of the crates record_work, record_method, record_reasons, record_joins, record_disjoins and
// read_records, and rows that it made are copied in. This crate holds nothing else.
#![tactic(auto)]

ghost use Rattle.block.specs.Text.{numbers};
ghost use Rattle.block.specs.Reasons.{why_numbers};
ghost use Rattle.promises.specs.Lent.{lent_records};
ghost use Rattle.promises.specs.Lists.{RowValuePromise, RowMethodPromise, FillPromise};
ghost use Rattle.promises.specs.Reasons.{WhyNotPromise};
ghost use Rattle.promises.specs.Joins.{JoinPromise};
ghost use Rattle.promises.specs.Overlaps.{DisjoinPromise};
ghost use Rattle.promises.specs.Texts.{WritePromise, ReadPromise};
ghost use Rattle.promises.specs.Sheets.{SheetPromise};
ghost use Rattle.promises.specs.Models.{WriteModelPromise};

use block::{
    Answer, DisjoinAnswer, Headings, JoinAnswer, LIST_INPUTS, ReadAnswer, Reason, Refusal, Row,
    RowMethodAnswer, TextAnswer, ValueAnswer,
};

// R(t) of a list. Refuses with 1, 2, 3 (the type, t), 4, 6, 7 and 11.
pub fn row_value(n: usize, k: usize, block_type: usize, t: usize, rows: &[Row]) -> ValueAnswer
    ensures { RowValuePromise n k block_type t rows.now result }
{
    let m = record_copies::fits(rows.len());
    let flat = record_copies::gather(rows, m);
    record_work::value_of(n, k, block_type, t, flat, m)
}

// T, sigma, the smaller rows and both measures of a list, with weight limit w: the smaller rows are the first records of `smaller`, and
// the others hold what they held. Refuses with 1, 2, 3 (the type, w), 4, 5 (n numbers for each matrix, 512 rows), 6, 7, 11 and 9.
pub fn row_method(
    n: usize,
    k: usize,
    block_type: usize,
    w: usize,
    rows: &[Row],
    basis: &mut [u32],
    sigma: &mut [u32],
    smaller: &mut [Row],
) -> RowMethodAnswer
    ensures { RowMethodPromise n k block_type w rows.now (lent_records smaller.old smaller.new)
        basis.old sigma.old result basis.new sigma.new }
{
    let m = record_copies::fits(rows.len());
    let flat = record_copies::gather(rows, m);
    let done = record_method::method_of(n, k, block_type, w, flat, m, smaller.len(), basis, sigma);
    record_copies::scatter(done.flat, done.count, smaller);
    done.answer
}

// Why t was not taken, with weight limit w; the taken numbers, T by columns, go to the front of `taken`. Refuses with 1, 2, 3 (the type, w,
// t), 4, 6, 7 and 11.
pub fn why_not(
    n: usize,
    k: usize,
    block_type: usize,
    w: usize,
    t: usize,
    rows: &[Row],
    taken: &mut [u32; LIST_INPUTS],
) -> Result<Reason, Answer>
    ensures { WhyNotPromise n k block_type w t rows.now taken.old (why_numbers result) taken.new }
{
    let m = record_copies::fits(rows.len());
    let flat = record_copies::gather(rows, m);
    record_reasons::why_of(n, k, block_type, w, t, flat, m, taken)
}

// Joins the rows of a list, of up to 512 rows, in place: the joined rows are the first records, and each freed record is all zeros. Refuses with
// 1, 2, 4, 6 and 7.
pub fn join_rows(n: usize, k: usize, rows: &mut [Row]) -> JoinAnswer
    ensures { JoinPromise n k rows.old (lent_records rows.old rows.new) result }
{
    let m = record_copies::fits(rows.len());
    let flat = record_copies::gather(rows, m);
    let done = record_joins::join_of(n, k, flat, m);
    record_copies::scatter(done.flat, done.count, rows);
    done.answer
}

// The disjoint list of a list whose rows may share points: its rows are the first records of `disjoint`, and the others hold what they held. Refuses
// with 1, 2, 4, 5 (128 rows), 6 and, where more than 128 rows would come out, 14.
pub fn disjoin_rows(n: usize, k: usize, rows: &[Row], disjoint: &mut [Row]) -> DisjoinAnswer
    ensures { DisjoinPromise n k rows.now (lent_records disjoint.old disjoint.new) result }
{
    let m = record_copies::fits(rows.len());
    let flat = record_copies::gather(rows, m);
    let done = record_disjoins::disjoin_of(n, k, flat, m, disjoint.len());
    record_copies::scatter(done.flat, done.count, disjoint);
    done.answer
}

// Fills the table of a list, of up to 512 rows. Refuses with 1, 2, 3 (the type), 4, 5 (2^n entries), 6, 7 and 11.
pub fn fill_table(n: usize, k: usize, block_type: usize, rows: &[Row], table: &mut [u16]) -> Answer
    ensures { FillPromise n k block_type rows.now table.old result table.new }
{
    let m = record_copies::fits(rows.len());
    let flat = record_copies::gather(rows, m);
    record_work::fill_of(n, k, block_type, flat, m, table)
}

// Writes the rows as text to the front of out; `type_line` is 0 where the type line is not to stand. Refuses with 1, 2, 3 (the type, or fr
// without its line), 4, 5 (4,255 bytes) and 6.
pub fn write_text(
    n: usize,
    k: usize,
    block_type: usize,
    type_line: usize,
    rows: &[Row],
    out: &mut [u8],
) -> TextAnswer
    ensures { WritePromise n k block_type type_line rows.now out.old result out.new }
{
    let m = record_copies::fits(rows.len());
    let flat = record_copies::gather(rows, m);
    record_work::write_of(n, k, block_type, type_line, flat, m, out)
}

// Reads the text: its rows are the first records, and the others hold what they held. Refuses with 10 for a heading, then 1, 2, 4 and
// 5 (the .p count of rows), then 10 for the rest.
pub fn read_text(text: &[u8], rows: &mut [Row]) -> Result<Headings, Refusal>
    ensures { ReadPromise text.now (lent_records rows.old rows.new) (numbers result) }
{
    let read = read_records::read_of(text, rows.len());
    record_copies::scatter(read.flat, read.count, rows);
    read.answer
}

// Reads the text as `read_text` does, for a program in another language: an enum is no answer there.
pub fn read_numbers(text: &[u8], rows: &mut [Row]) -> ReadAnswer
    ensures { ReadPromise text.now (lent_records rows.old rows.new) result }
{
    let read = read_records::read_numbers_of(text, rows.len());
    record_copies::scatter(read.flat, read.count, rows);
    read.answer
}

// Writes the sheet of the rows with weight limit w to the front of out. Refuses with 1, 2, 3 (the type, w), 4, 5 (17,518 bytes),
// 6, 7, 11 and 9.
pub fn sheet(
    n: usize,
    k: usize,
    block_type: usize,
    w: usize,
    rows: &[Row],
    out: &mut [u8],
) -> TextAnswer
    ensures { SheetPromise n k block_type w rows.now out.old result out.new }
{
    let m = record_copies::fits(rows.len());
    let flat = record_copies::gather(rows, m);
    record_work::sheet_of(n, k, block_type, w, flat, m, out)
}

// Writes the model of the rows with weight limit w to the front of out. Refuses with 1, 2, 3 (the type, w), 4, 6, 7, 11 and 9, as the row
// method does, and then with 5 where out is shorter than the model.
pub fn write_model(
    n: usize,
    k: usize,
    block_type: usize,
    w: usize,
    rows: &[Row],
    out: &mut [u8],
) -> TextAnswer
    ensures { WriteModelPromise n k block_type w rows.now out.old result out.new }
{
    let m = record_copies::fits(rows.len());
    let flat = record_copies::gather(rows, m);
    record_work::model_of(n, k, block_type, w, flat, m, out)
}
