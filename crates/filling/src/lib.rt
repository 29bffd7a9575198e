// Filling a table from rows: the word of a missing point everywhere, then each row's word at the row's own points. Every function here is
// inner.
#![tactic(auto)]

ghost use Rattle.std.specs.Prelude.{◌≡◌, ℕ, ◌≤◌, ◌<◌, ◌^◌, length};
ghost use Rattle.slices.specs.Places.{at, tab, over};
ghost use Rattle.block.specs.Limits.{table_inputs, smaller_rows};
ghost use Rattle.block.specs.Words.{row, rows_of};
ghost use Rattle.block.specs.Lists.{filled};
ghost use Rattle.pair_laws.specs.Cube.{Sound};
ghost use Rattle.pair_laws.specs.Theorem.{Every};
ghost use Rattle.flat_rows.specs.Listing.{Listed};
ghost use Rattle.filling.specs.Points.{RowPut};

// The word of a missing point at every point.
fn clear(size: usize, missing: u16, out: &mut [u16])
    requires { size ≤ length out.old }
    ensures { out.new ≡ over (tab size (λ _. missing)) out.old }
{
    out[..size].fill(missing);
}

// The row's word at each point under the row: its values at the fixed inputs, and at the free ones each part of them in turn, from the
// greatest down to 0.
fn put_row(n: usize, mask: u32, values: u32, word: u16, out: &mut [u16])
    requires { (n ≤ table_inputs) × (2 ^ n ≤ length out.old) × Sound n (row mask values word) }
    ensures { RowPut n (row mask values word) out.old out.new }
{
    let free = (bit_work::power(n) - 1) ^ mask;
    let mut part = free;
    // A while: the next part is the greatest below this one, and mostly not one less.
    while 0 < part {
        out[(values ^ part) as usize] = word;
        part = free & (part - 1);
    }
    out[(values ^ part) as usize] = word;
}

// The full table of a list of rows, put from the last row to the first: at a point under two rows the first one's word stays.
pub fn fill_rows(
    n: usize,
    masks: &[u32],
    values: &[u32],
    words: &[u32],
    missing: u32,
    out: &mut [u16],
)
    requires n_le_table_inputs { (n ≤ table_inputs) × (2 ^ n ≤ length out.old) × Listed smaller_rows masks.now values.now words.now }
    requires every { Every (Sound n) (rows_of masks.now values.now words.now) }
    requires missing_bound { (missing < 65536) × ((i : ℕ) → i < length words.now → at words.now i < 65536) }
    ensures { out.new ≡ over (filled missing n (rows_of masks.now values.now words.now)) out.old }
{
    clear(bit_work::size(n), missing as u16, out);
    for i in (0..masks.len()).rev() {
        put_row(n, masks[i], values[i], words[i] as u16, out);
    }
}
