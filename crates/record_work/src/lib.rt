// The work of the operations with records that make no rows, which are those of the crate records: records are copied out once into three
// arrays (crate record_copies), and for each operation a function lends these as flat slices to the operation of the same name. Those that make
// rows stand in record_method and read_records. All functions here are inner.
#![tactic(auto)]

ghost use Rattle.std.specs.Prelude.{◌≤◌};
ghost use Rattle.promises.specs.Lists.{RowValuePromise, FillPromise};
ghost use Rattle.promises.specs.Texts.{WritePromise};
ghost use Rattle.promises.specs.Sheets.{SheetPromise};
ghost use Rattle.promises.specs.Models.{WriteModelPromise};
ghost use Rattle.record_copies.specs.Flat.{held_rows, Sized, listed};

use block::{Answer, TextAnswer, ValueAnswer};
use record_copies::FlatRows;

// A single shift value.
pub fn value_of(
    n: usize,
    k: usize,
    block_type: usize,
    t: usize,
    flat: FlatRows,
    m: usize,
) -> ValueAnswer
    requires { Sized flat × (m ≤ held_rows) }
    ensures { RowValuePromise n k block_type t (listed flat m) result }
{
    let masks = flat.masks;
    let values = flat.values;
    let words = flat.words;
    lists::row_value(n, k, block_type, t, &masks[..m], &values[..m], &words[..m])
}

// Filling a table.
pub fn fill_of(
    n: usize,
    k: usize,
    block_type: usize,
    flat: FlatRows,
    m: usize,
    table: &mut [u16],
) -> Answer
    requires { Sized flat × (m ≤ held_rows) }
    ensures { FillPromise n k block_type (listed flat m) table.old result table.new }
{
    let masks = flat.masks;
    let values = flat.values;
    let words = flat.words;
    lists::fill_table(
        n,
        k,
        block_type,
        &masks[..m],
        &values[..m],
        &words[..m],
        table,
    )
}

// Writing row text; `type_line` is 0 where the type line is not to stand.
pub fn write_of(
    n: usize,
    k: usize,
    block_type: usize,
    type_line: usize,
    flat: FlatRows,
    m: usize,
    out: &mut [u8],
) -> TextAnswer
    requires { Sized flat × (m ≤ held_rows) }
    ensures { WritePromise n k block_type type_line (listed flat m) out.old result out.new }
{
    let masks = flat.masks;
    let values = flat.values;
    let words = flat.words;
    writing::write_text(
        n,
        k,
        block_type,
        type_line,
        &masks[..m],
        &values[..m],
        &words[..m],
        out,
    )
}

// The sheet.
pub fn sheet_of(
    n: usize,
    k: usize,
    block_type: usize,
    w: usize,
    flat: FlatRows,
    m: usize,
    out: &mut [u8],
) -> TextAnswer
    requires { Sized flat × (m ≤ held_rows) }
    ensures { SheetPromise n k block_type w (listed flat m) out.old result out.new }
{
    let masks = flat.masks;
    let values = flat.values;
    let words = flat.words;
    sheets::sheet(
        n,
        k,
        block_type,
        w,
        &masks[..m],
        &values[..m],
        &words[..m],
        out,
    )
}

// Writing the model with this weight limit.
pub fn model_of(
    n: usize,
    k: usize,
    block_type: usize,
    limit: usize,
    flat: FlatRows,
    m: usize,
    out: &mut [u8],
) -> TextAnswer
    requires { Sized flat × (m ≤ held_rows) }
    ensures { WriteModelPromise n k block_type limit (listed flat m) out.old result out.new }
{
    let masks = flat.masks;
    let values = flat.values;
    let words = flat.words;
    models::write_model(
        n,
        k,
        block_type,
        limit,
        &masks[..m],
        &values[..m],
        &words[..m],
        out,
    )
}
