// Records copied out into three arrays, and copied in from them: what the operations with records, which are those of the crate records,
// share. A list of 513 rows is too long for every operation, so that no more rows are copied out. All functions here are inner.
#![tactic(auto)]

ghost use Rattle.std.specs.Prelude.{◌≡◌, ◌≤◌, min, length};
ghost use Rattle.record_copies.specs.Flat.{held_rows, Gathered, Scattered, Sized};

use block::{Row, SMALLER_ROWS};

// One row more than the longest list that an operation takes.
pub const HELD_ROWS: usize = SMALLER_ROWS + 1;

// Rows, field by field.
#[derive(Drop)]
pub struct FlatRows {
    pub masks: [u32; HELD_ROWS],
    pub values: [u32; HELD_ROWS],
    pub words: [u32; HELD_ROWS],
}

// How many records of a list are copied out.
pub fn fits(len: usize) -> usize
    ensures { result ≡ min len held_rows }
{
    len.min(HELD_ROWS)
}

// Arrays to store rows in.
pub fn blank() -> FlatRows
    ensures { Sized result }
{
    FlatRows {
        masks: [0u32; HELD_ROWS],
        values: [0u32; HELD_ROWS],
        words: [0u32; HELD_ROWS],
    }
}

// The first m records, and zeros after them.
pub fn gather(rows: &[Row], m: usize) -> FlatRows
    requires { (m ≤ length rows.now) × (m ≤ held_rows) }
    ensures { Gathered rows.now m result }
{
    let mut masks = [0u32; HELD_ROWS];
    let mut values = [0u32; HELD_ROWS];
    let mut words = [0u32; HELD_ROWS];
    for (i, r) in rows[..m].iter().enumerate() {
        masks[i] = r.mask;
        values[i] = r.values;
        words[i] = r.word;
    }
    FlatRows {
        masks,
        values,
        words,
    }
}

// Makes the first m records those of the arrays: the others hold what they held.
pub fn scatter(flat: FlatRows, m: usize, rows: &mut [Row])
    requires { (m ≤ held_rows) × (m ≤ length rows.old) }
    ensures { Scattered flat m rows.old rows.new }
{
    let masks = flat.masks;
    let values = flat.values;
    let words = flat.words;
    for i in 0..m {
        rows[i] = Row {
            mask: masks[i],
            values: values[i],
            word: words[i],
        };
    }
}
