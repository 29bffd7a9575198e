// R of a full table at every t of few one-bits, by blocks of 64 points. Every function here is inner.
#![tactic(auto)]

ghost use Rattle.std.specs.Prelude.{◌≡◌, ℕ, ◌+◌, ◌*◌, ◌-◌, ◌≤◌, ◌<◌, ◌^◌, length};
ghost use Rattle.std.specs.Int.Bits.{bit_xor};
ghost use Rattle.slices.specs.Places.{at, tab, over};
ghost use Rattle.block.specs.Limits.{table_inputs};
ghost use Rattle.block.specs.Words.{of_table};
ghost use Rattle.block.specs.Measure.{shift};
ghost use Rattle.table_words.specs.Matching.{hole, marked};
ghost use Rattle.table_shifts.specs.Blocks.{FullTable, Copied};
ghost use Rattle.table_shifts.specs.Light.{LightValues, LowPut};

use block::TABLE_POINTS;

// The marked copy: entry y is the table's entry at y XOR low.
fn put_copy(table: &[u16], n: usize, low: usize, copy: &mut [u16])
    requires { (length table.now ≡ 2 ^ n) × (low < 2 ^ n) × (2 ^ n ≤ length copy.old) }
    ensures { copy.new ≡ over (tab (2 ^ n) (λ y. marked (at table.now (bit_xor y low)))) copy.old }
{
    for y in 0..table.len() {
        copy[y] = table_words::mark(table[y ^ low]);
    }
}

// R at high * 64 + low, from a copy made for low.
fn shift_by_blocks(table: &[u16], copy: &[u16], n: usize, low: usize, high: usize) -> u32
    requires { (Copied table.now copy.now n low) × (high < 2 ^ (n - 6)) }
    ensures { result ≡ shift (of_table table.now) n (high * 64 + low) }
{
    let mut r: u32 = 0;
    for b in 0..table.len() / 64 {
        r += table_words::blocks_add(table, copy, n, high, b);
    }
    r
}

// R(t) for every t of at most w one-bits with the given low part.
fn shifts_at_low(table: &[u16], n: usize, w: usize, low: usize, out: &mut [u32])
    requires { (FullTable table.now n) × (low < 64) × (2 ^ n ≤ length out.old) }
    ensures { LowPut (shift (of_table table.now) n) w low (2 ^ n) out.old out.new }
{
    let mut copy = [0u16; TABLE_POINTS];
    put_copy(table, n, low, &mut copy);
    for high in 0..table.len() / 64 {
        let t = high * 64 + low;
        if table_words::has_few(t, w) {
            out[t] = shift_by_blocks(table, &copy, n, low, high);
        }
    }
}

// R(t) for every t of at most w one-bits, each worked out once. No entry is the mark of the copy.
pub fn shifts_of(table: &[u16], n: usize, w: usize, out: &mut [u32])
    requires { (length table.now ≡ 2 ^ n) × (n ≤ table_inputs) × (2 ^ n ≤ length out.old) × ((i : ℕ) → i < 2 ^ n → at table.now i ≡ hole → ⊥) }
    ensures { LightValues (shift (of_table table.now) n) (2 ^ n) w out.new }
{
    if n < 6 {
        table_values::small_shifts(table, n, out);
        return;
    }
    for low in 0..64 {
        if table_words::has_few(low, w) {
            shifts_at_low(table, n, w, low, out);
        }
    }
}
