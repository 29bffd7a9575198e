// A table read through a matrix: the smaller table through T's columns, and the restored table through sigma's. Every function here is inner.
#![tactic(auto)]

ghost use Rattle.std.specs.Prelude.{◌≡◌, ℕ, ◌≤◌, ◌<◌, ◌^◌, length};
ghost use Rattle.slices.specs.Places.{at, tab, over};
ghost use Rattle.block.specs.Limits.{table_inputs};
ghost use Rattle.block.specs.Words.{of_table};
ghost use Rattle.block.specs.Basis.{columns};
ghost use Rattle.block.specs.Tables.{restored};

use block::{TABLE_INPUTS, TABLE_POINTS};

// The table read through the matrix with these columns: entry z is the table's entry at the matrix's value at z. With T's columns that is
// the smaller table.
pub fn put_through(table: &[u16], by_columns: &[u32], n: usize, out: &mut [u16])
    requires { (length table.now ≡ 2 ^ n) × (n ≤ table_inputs) × (n ≤ length by_columns.now) × (2 ^ n ≤ length out.old) × ((j : ℕ) → j < n → at by_columns.now j < 2 ^ n) }
    ensures { out.new ≡ over (tab (2 ^ n) (λ z. of_table table.now (columns (at by_columns.now) n z))) out.old }
{
    let mut images = [0u32; TABLE_POINTS];
    matrix_work::put_images(by_columns, n, &mut images);
    let size = table.len();
    for z in 0..size {
        out[z] = table[images[z] as usize];
    }
}

// The restored table: entry x is the smaller table's entry at sigma x.
pub fn put_restored(sigma: &[u32], n: usize, table: &[u16], out: &mut [u16])
    requires { (length table.now ≡ 2 ^ n) × (n ≤ table_inputs) × (n ≤ length sigma.now) × (2 ^ n ≤ length out.old) }
    ensures { out.new ≡ over (restored n sigma.now table.now) out.old }
{
    let mut sigma_columns = [0u32; TABLE_INPUTS];
    matrix_work::put_columns(sigma, n, &mut sigma_columns);
    put_through(table, &sigma_columns, n, out);
}
