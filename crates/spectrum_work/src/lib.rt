// R of a full table by the Wiener-Khinchin theorem (02, Ticket 5; document 004, section 2.2): for each output word a signed Walsh
// transform, squares, transform again, divide by 2^n; R is the sum over the words. Every function here is inner.
#![tactic(auto)]

ghost use Rattle.std.specs.Prelude.{◌≡◌, ℕ, ◌+◌, ◌≤◌, ◌<◌, ◌^◌, length, pos};
ghost use Rattle.slices.specs.Places.{at, tab, over};
ghost use Rattle.block.specs.Limits.{table_inputs};
ghost use Rattle.block.specs.Words.{of_table};
ghost use Rattle.block.specs.Measure.{shift};
ghost use Rattle.block.specs.Tables.{shift_values, working_end};
ghost use Rattle.walsh_laws.specs.Walsh.{auto, most_points};
ghost use Rattle.spectrum_words.specs.Words.{marks};

// What the points with the word u add to R, at every t. The working numbers end at 0.
fn add_word(table: &[u16], n: usize, u: u16, working: &mut [i32], values: &mut [u32])
    requires { (length table.now ≡ 2 ^ n) × (length working.old ≡ 2 ^ n) × (length values.old ≡ 2 ^ n) × (n ≤ table_inputs) × ((t : ℕ) → t < 2 ^ n → at values.old t ≤ most_points) }
    ensures { (working.new ≡ tab (2 ^ n) (λ _. pos 0)) × (values.new ≡ tab (2 ^ n) (λ t. at values.old t + auto (marks (at table.now) u) n t)) }
{
    spectrum_words::put_marks(table, u, working);
    walsh::transform(working, n);
    walsh::square(working);
    walsh::transform(working, n); // again, of the squares
    spectrum_words::add_quotients(working, n, values);
}

// R at every t, over as much room as the table has entries. 65,535, no output, is no word and comes after all of them.
fn add_words(table: &[u16], n: usize, working: &mut [i32], values: &mut [u32])
    requires { (length table.now ≡ 2 ^ n) × (length working.old ≡ 2 ^ n) × (length values.old ≡ 2 ^ n) × (n ≤ table_inputs) }
    ensures { (working.new ≡ tab (2 ^ n) (λ _. pos 0)) × (values.new ≡ tab (2 ^ n) (shift (of_table table.now) n)) }
{
    working.fill(0);
    values.fill(0);
    let mut u = spectrum_words::next_word(table, 0);
    // a while: the step leads to the next word that the table has
    while u < 65535 {
        add_word(table, n, u, working, values);
        u = spectrum_words::next_word(table, u + 1);
    }
}

// R at every t, at the front of the room `values`. The 2^n working numbers end at 0; what lies beyond in either room holds what it held.
pub fn put_shifts(table: &[u16], n: usize, values: &mut [u32], working: &mut [i32])
    requires { (length table.now ≡ 2 ^ n) × (n ≤ table_inputs) × (2 ^ n ≤ length values.old) × (2 ^ n ≤ length working.old) }
    ensures { (values.new ≡ over (shift_values (of_table table.now) n) values.old)
        × (working.new ≡ over (working_end n) working.old) }
{
    let size = table.len();
    add_words(table, n, &mut working[..size], &mut values[..size]);
}
