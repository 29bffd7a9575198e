// The work of the table method, once the checks have passed. Every function here is inner.
#![tactic(auto)]

ghost use Rattle.std.specs.Prelude.{◌≡◌, ℕ, ◌≤◌, ◌<◌, ◌^◌, length};
ghost use Rattle.slices.specs.Places.{at};
ghost use Rattle.block.specs.Limits.{table_inputs};
ghost use Rattle.block.specs.Words.{of_table};
ghost use Rattle.table_words.specs.Matching.{hole};
ghost use Rattle.smaller_tables.specs.Work.{Worked};

use block::{Measures, TABLE_POINTS};

// Basis, sigma, smaller table and both measures of a table that passed the checks. R is worked out once for every t of at most w one-bits,
// and then laid by the places of the walk. No entry is the mark that the values are counted with, 65,534, which a
// table never holds that passed.
pub fn linearize(
    table: &[u16],
    n: usize,
    w: usize,
    basis: &mut [u32],
    sigma: &mut [u32],
    smaller: &mut [u16],
) -> Measures
    requires { (length table.now ≡ 2 ^ n) × (n ≤ table_inputs) × (1 ≤ w) × (w ≤ n) × (n ≤ length basis.old) × (n ≤ length sigma.old)
        × (2 ^ n ≤ length smaller.old) × ((i : ℕ) → i < 2 ^ n → at table.now i ≡ hole → ⊥) }
    ensures { Worked (of_table table.now) n w basis.old sigma.old smaller.old basis.new sigma.new smaller.new result }
{
    let mut by_t = [0u32; TABLE_POINTS];
    let mut walk = [0u32; TABLE_POINTS];
    let mut values = [0u32; TABLE_POINTS];
    table_shifts::shifts_of(table, n, w, &mut by_t);
    let count = walks::put_walk(n, w, &mut walk);
    copying::put_values(&by_t, &walk, count, &mut values);
    let measures = choosing::choose_basis(&walk, &values, count, n, w, basis, sigma);
    restoring::put_through(table, basis, n, smaller);
    measures
}
