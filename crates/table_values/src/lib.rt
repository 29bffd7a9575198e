// R of a full table point by point: at one t, and at every t. Every function here is inner.
#![tactic(auto)]

ghost use Rattle.std.specs.Prelude.{◌≡◌, ◌≤◌, ◌<◌, ◌^◌, length};
ghost use Rattle.slices.specs.Places.{tab, over};
ghost use Rattle.block.specs.Limits.{table_inputs};
ghost use Rattle.block.specs.Words.{of_table};
ghost use Rattle.block.specs.Measure.{shift};

// R(t) of a full table of 2^n words.
pub fn shift_at(table: &[u16], n: usize, t: usize) -> u32
    requires { (length table.now ≡ 2 ^ n) × (t < 2 ^ n) × (n ≤ table_inputs) }
    ensures { result ≡ shift (of_table table.now) n t }
{
    let mut r: u32 = 0;
    for (x, w) in table.iter().enumerate() {
        if *w != 65535 && table[x ^ t] == *w {
            r += 1;
        }
    }
    r
}

// R(t) for every t, point by point: for tables of less than a block.
pub fn small_shifts(table: &[u16], n: usize, out: &mut [u32])
    requires { (length table.now ≡ 2 ^ n) × (n ≤ table_inputs) × (2 ^ n ≤ length out.old) }
    ensures { out.new ≡ over (tab (2 ^ n) (shift (of_table table.now) n)) out.old }
{
    for t in 0..table.len() {
        out[t] = shift_at(table, n, t);
    }
}
