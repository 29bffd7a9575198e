// The operations for programs in C and Rust: each function calls the operation of the same name and promises what it promises. A slice
// is passed as a pointer and then a length, an array as a pointer alone, and an answer comes back as a struct of numbers. The names begin
// with irwystl_, those on rows that are lent as records with irwystl_records_. This crate holds nothing else.
#![tactic(auto)]

ghost use Rattle.block.specs.Words.{rows_of};
ghost use Rattle.block.specs.ModelRead.{patterns_flat};
ghost use Rattle.promises.specs.Lent.{lent_flat, lent_records};
ghost use Rattle.promises.specs.Tables.{TableValuePromise, TableMethodPromise, RestorePromise, SpectrumPromise};
ghost use Rattle.promises.specs.Symmetric.{SymmetricBlockPromise, TableSymmetricPromise};
ghost use Rattle.promises.specs.Lists.{RowValuePromise, RowMethodPromise, FillPromise};
ghost use Rattle.promises.specs.Reasons.{WhyNotPromise};
ghost use Rattle.promises.specs.Joins.{JoinPromise, PrintJoinPromise};
ghost use Rattle.promises.specs.Overlaps.{DisjoinPromise, PrintDisjointPromise};
ghost use Rattle.promises.specs.Texts.{WritePromise, ReadPromise};
ghost use Rattle.promises.specs.Sheets.{SheetPromise, PrintPromise};
ghost use Rattle.promises.specs.Models.{WriteModelPromise, ReadModelPromise, ModelValuePromise, PrintModelPromise};
ghost use Rattle.importing.specs.Import.{ImportPromise};

use block::{
    Answer, DisjoinAnswer, JoinAnswer, LIST_INPUTS, MODEL_ROOM, ModelAnswer, ReadAnswer, Row,
    RowMethodAnswer, SHEET_ROOM, TEXT_ROOM, TableMethodAnswer, TextAnswer, ValueAnswer, WhyAnswer,
};
use importing::Imported;

// ---- tables

#[unsafe(no_mangle)]
pub extern "C" fn irwystl_table_value(
    n: usize,
    k: usize,
    block_type: usize,
    t: usize,
    table: &[u16],
) -> ValueAnswer
    ensures { TableValuePromise n k block_type t table.now result }
{
    tables::table_value(n, k, block_type, t, table)
}

#[unsafe(no_mangle)]
pub extern "C" fn irwystl_table_method(
    n: usize,
    k: usize,
    block_type: usize,
    w: usize,
    table: &[u16],
    basis: &mut [u32],
    sigma: &mut [u32],
    smaller: &mut [u16],
) -> TableMethodAnswer
    ensures { TableMethodPromise n k block_type w table.now
        basis.old sigma.old smaller.old result basis.new sigma.new smaller.new }
{
    tables::table_method(n, k, block_type, w, table, basis, sigma, smaller)
}

#[unsafe(no_mangle)]
pub extern "C" fn irwystl_restore_table(
    n: usize,
    k: usize,
    block_type: usize,
    sigma: &[u32],
    smaller: &[u16],
    table: &mut [u16],
) -> Answer
    ensures { RestorePromise n k block_type sigma.now smaller.now table.old result table.new }
{
    tables::restore_table(n, k, block_type, sigma, smaller, table)
}

#[unsafe(no_mangle)]
pub extern "C" fn irwystl_table_spectrum(
    n: usize,
    k: usize,
    block_type: usize,
    table: &[u16],
    values: &mut [u32],
    working: &mut [i32],
) -> Answer
    ensures { SpectrumPromise n k block_type table.now values.old working.old result
        values.new working.new }
{
    spectrum::table_spectrum(n, k, block_type, table, values, working)
}

#[unsafe(no_mangle)]
pub extern "C" fn irwystl_symmetric_block(
    n: usize,
    k: usize,
    block_type: usize,
    words: &[u16],
    table: &mut [u16],
    smaller: &mut [u16],
) -> TableMethodAnswer
    ensures { SymmetricBlockPromise n k block_type words.now table.old smaller.old result
        table.new smaller.new }
{
    symmetric::symmetric_block(n, k, block_type, words, table, smaller)
}

#[unsafe(no_mangle)]
pub extern "C" fn irwystl_table_symmetric(
    n: usize,
    k: usize,
    block_type: usize,
    table: &[u16],
) -> ValueAnswer
    ensures { TableSymmetricPromise n k block_type table.now result }
{
    symmetric::table_symmetric(n, k, block_type, table)
}

// ---- rows in three flat slices

#[unsafe(no_mangle)]
pub extern "C" fn irwystl_row_value(
    n: usize,
    k: usize,
    block_type: usize,
    t: usize,
    masks: &[u32],
    values: &[u32],
    words: &[u32],
) -> ValueAnswer
    ensures { RowValuePromise n k block_type t (rows_of masks.now values.now words.now) result }
{
    lists::row_value(n, k, block_type, t, masks, values, words)
}

#[unsafe(no_mangle)]
pub extern "C" fn irwystl_row_method(
    n: usize,
    k: usize,
    block_type: usize,
    w: usize,
    masks: &[u32],
    values: &[u32],
    words: &[u32],
    basis: &mut [u32],
    sigma: &mut [u32],
    smaller_masks: &mut [u32],
    smaller_values: &mut [u32],
    smaller_words: &mut [u32],
) -> RowMethodAnswer
    ensures { RowMethodPromise n k block_type w (rows_of masks.now values.now words.now)
        (lent_flat smaller_masks.old smaller_values.old smaller_words.old
        smaller_masks.new smaller_values.new smaller_words.new)
        basis.old sigma.old result basis.new sigma.new }
{
    lists::row_method(
        n,
        k,
        block_type,
        w,
        masks,
        values,
        words,
        basis,
        sigma,
        smaller_masks,
        smaller_values,
        smaller_words,
    )
}

#[unsafe(no_mangle)]
pub extern "C" fn irwystl_why_not(
    n: usize,
    k: usize,
    block_type: usize,
    w: usize,
    t: usize,
    masks: &[u32],
    values: &[u32],
    words: &[u32],
    taken: &mut [u32; LIST_INPUTS],
) -> WhyAnswer
    ensures { WhyNotPromise n k block_type w t (rows_of masks.now values.now words.now)
        taken.old result taken.new }
{
    let why = reasons::why_not(n, k, block_type, w, t, masks, values, words, taken);
    reason_numbers::in_numbers(why)
}

#[unsafe(no_mangle)]
pub extern "C" fn irwystl_join_rows(
    n: usize,
    k: usize,
    masks: &mut [u32],
    values: &mut [u32],
    words: &mut [u32],
) -> JoinAnswer
    ensures { JoinPromise n k (rows_of masks.old values.old words.old)
        (lent_flat masks.old values.old words.old masks.new values.new words.new) result }
{
    joining::join_rows(n, k, masks, values, words)
}

#[unsafe(no_mangle)]
pub extern "C" fn irwystl_disjoin_rows(
    n: usize,
    k: usize,
    masks: &[u32],
    values: &[u32],
    words: &[u32],
    disjoint_masks: &mut [u32],
    disjoint_values: &mut [u32],
    disjoint_words: &mut [u32],
) -> DisjoinAnswer
    ensures { DisjoinPromise n k (rows_of masks.now values.now words.now)
        (lent_flat disjoint_masks.old disjoint_values.old disjoint_words.old
        disjoint_masks.new disjoint_values.new disjoint_words.new) result }
{
    disjoining::disjoin_rows(
        n,
        k,
        masks,
        values,
        words,
        disjoint_masks,
        disjoint_values,
        disjoint_words,
    )
}

#[unsafe(no_mangle)]
pub extern "C" fn irwystl_fill_table(
    n: usize,
    k: usize,
    block_type: usize,
    masks: &[u32],
    values: &[u32],
    words: &[u32],
    table: &mut [u16],
) -> Answer
    ensures { FillPromise n k block_type (rows_of masks.now values.now words.now)
        table.old result table.new }
{
    lists::fill_table(n, k, block_type, masks, values, words, table)
}

#[unsafe(no_mangle)]
pub extern "C" fn irwystl_write_text(
    n: usize,
    k: usize,
    block_type: usize,
    type_line: usize,
    masks: &[u32],
    values: &[u32],
    words: &[u32],
    out: &mut [u8],
) -> TextAnswer
    ensures { WritePromise n k block_type type_line (rows_of masks.now values.now words.now)
        out.old result out.new }
{
    writing::write_text(n, k, block_type, type_line, masks, values, words, out)
}

#[unsafe(no_mangle)]
pub extern "C" fn irwystl_sheet(
    n: usize,
    k: usize,
    block_type: usize,
    w: usize,
    masks: &[u32],
    values: &[u32],
    words: &[u32],
    out: &mut [u8],
) -> TextAnswer
    ensures { SheetPromise n k block_type w (rows_of masks.now values.now words.now)
        out.old result out.new }
{
    sheets::sheet(n, k, block_type, w, masks, values, words, out)
}

#[unsafe(no_mangle)]
pub extern "C" fn irwystl_read_text(
    text: &[u8],
    masks: &mut [u32],
    values: &mut [u32],
    words: &mut [u32],
) -> ReadAnswer
    ensures { ReadPromise text.now
        (lent_flat masks.old values.old words.old masks.new values.new words.new)
        result }
{
    let answer = reading::read_text(text, masks, values, words);
    read_kinds::in_numbers(answer)
}

// ---- rows as records

#[unsafe(no_mangle)]
pub extern "C" fn irwystl_records_row_value(
    n: usize,
    k: usize,
    block_type: usize,
    t: usize,
    rows: &[Row],
) -> ValueAnswer
    ensures { RowValuePromise n k block_type t rows.now result }
{
    records::row_value(n, k, block_type, t, rows)
}

#[unsafe(no_mangle)]
pub extern "C" fn irwystl_records_row_method(
    n: usize,
    k: usize,
    block_type: usize,
    w: usize,
    rows: &[Row],
    basis: &mut [u32],
    sigma: &mut [u32],
    smaller: &mut [Row],
) -> RowMethodAnswer
    ensures { RowMethodPromise n k block_type w rows.now (lent_records smaller.old smaller.new)
        basis.old sigma.old result basis.new sigma.new }
{
    records::row_method(n, k, block_type, w, rows, basis, sigma, smaller)
}

#[unsafe(no_mangle)]
pub extern "C" fn irwystl_records_why_not(
    n: usize,
    k: usize,
    block_type: usize,
    w: usize,
    t: usize,
    rows: &[Row],
    taken: &mut [u32; LIST_INPUTS],
) -> WhyAnswer
    ensures { WhyNotPromise n k block_type w t rows.now taken.old result taken.new }
{
    let why = records::why_not(n, k, block_type, w, t, rows, taken);
    reason_numbers::in_numbers(why)
}

#[unsafe(no_mangle)]
pub extern "C" fn irwystl_records_join_rows(n: usize, k: usize, rows: &mut [Row]) -> JoinAnswer
    ensures { JoinPromise n k rows.old (lent_records rows.old rows.new) result }
{
    records::join_rows(n, k, rows)
}

#[unsafe(no_mangle)]
pub extern "C" fn irwystl_records_disjoin_rows(
    n: usize,
    k: usize,
    rows: &[Row],
    disjoint: &mut [Row],
) -> DisjoinAnswer
    ensures { DisjoinPromise n k rows.now (lent_records disjoint.old disjoint.new) result }
{
    records::disjoin_rows(n, k, rows, disjoint)
}

#[unsafe(no_mangle)]
pub extern "C" fn irwystl_records_fill_table(
    n: usize,
    k: usize,
    block_type: usize,
    rows: &[Row],
    table: &mut [u16],
) -> Answer
    ensures { FillPromise n k block_type rows.now table.old result table.new }
{
    records::fill_table(n, k, block_type, rows, table)
}

#[unsafe(no_mangle)]
pub extern "C" fn irwystl_records_write_text(
    n: usize,
    k: usize,
    block_type: usize,
    type_line: usize,
    rows: &[Row],
    out: &mut [u8],
) -> TextAnswer
    ensures { WritePromise n k block_type type_line rows.now out.old result out.new }
{
    records::write_text(n, k, block_type, type_line, rows, out)
}

#[unsafe(no_mangle)]
pub extern "C" fn irwystl_records_read_text(text: &[u8], rows: &mut [Row]) -> ReadAnswer
    ensures { ReadPromise text.now (lent_records rows.old rows.new) result }
{
    records::read_numbers(text, rows)
}

#[unsafe(no_mangle)]
pub extern "C" fn irwystl_records_sheet(
    n: usize,
    k: usize,
    block_type: usize,
    w: usize,
    rows: &[Row],
    out: &mut [u8],
) -> TextAnswer
    ensures { SheetPromise n k block_type w rows.now out.old result out.new }
{
    records::sheet(n, k, block_type, w, rows, out)
}

#[unsafe(no_mangle)]
pub extern "C" fn irwystl_records_write_model(
    n: usize,
    k: usize,
    block_type: usize,
    w: usize,
    rows: &[Row],
    out: &mut [u8],
) -> TextAnswer
    ensures { WriteModelPromise n k block_type w rows.now out.old result out.new }
{
    records::write_model(n, k, block_type, w, rows, out)
}

// ---- models in BLIF

#[unsafe(no_mangle)]
pub extern "C" fn irwystl_write_model(
    n: usize,
    k: usize,
    block_type: usize,
    w: usize,
    masks: &[u32],
    values: &[u32],
    words: &[u32],
    out: &mut [u8],
) -> TextAnswer
    ensures { WriteModelPromise n k block_type w (rows_of masks.now values.now words.now)
        out.old result out.new }
{
    models::write_model(n, k, block_type, w, masks, values, words, out)
}

#[unsafe(no_mangle)]
pub extern "C" fn irwystl_read_model(
    text: &[u8],
    matrix: &mut [u32],
    counts: &mut [usize],
    masks: &mut [u32],
    values: &mut [u32],
) -> ModelAnswer
    ensures { ReadModelPromise text.now matrix.old counts.old masks.old values.old
        result matrix.new counts.new masks.new values.new }
{
    models::read_model(text, matrix, counts, masks, values)
}

#[unsafe(no_mangle)]
pub extern "C" fn irwystl_model_value(
    n: usize,
    k: usize,
    x: usize,
    matrix: &[u32],
    counts: &[usize],
    masks: &[u32],
    values: &[u32],
) -> ValueAnswer
    ensures { ModelValuePromise n k x matrix.now counts.now (patterns_flat masks.now values.now) result }
{
    models::model_value(n, k, x, matrix, counts, masks, values)
}

// ---- texts alone, with rooms of fixed length

#[unsafe(no_mangle)]
pub extern "C" fn irwystl_print_text(input: &[u8], out: &mut [u8; SHEET_ROOM]) -> usize
    ensures { PrintPromise input.now out.old result out.new }
{
    printing::print_text(input, out)
}

#[unsafe(no_mangle)]
pub extern "C" fn irwystl_print_model(input: &[u8], out: &mut [u8; MODEL_ROOM]) -> usize
    ensures { PrintModelPromise input.now out.old result out.new }
{
    printing::print_model(input, out)
}

#[unsafe(no_mangle)]
pub extern "C" fn irwystl_print_joined(input: &[u8], out: &mut [u8; TEXT_ROOM]) -> usize
    ensures { PrintJoinPromise input.now out.old result out.new }
{
    printing::print_joined(input, out)
}

#[unsafe(no_mangle)]
pub extern "C" fn irwystl_print_disjoint(input: &[u8], out: &mut [u8; TEXT_ROOM]) -> usize
    ensures { PrintDisjointPromise input.now out.old result out.new }
{
    printing::print_disjoint(input, out)
}

#[unsafe(no_mangle)]
pub extern "C" fn irwystl_import_text(
    name: &[u8],
    text: &[u8],
    sheet: &mut [u8; SHEET_ROOM],
    line: &mut [u8; 4176],
) -> Imported
    ensures { ImportPromise name.now text.now sheet.old line.old
        result sheet.new line.new }
{
    importing::import_text(name, text, sheet, line)
}
