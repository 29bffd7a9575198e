// The points that rows have and those that they leave: what all rows take from R where missing points count, and how many points they cover,
// which leave none missing where they cover all. Every function here is inner.
#![tactic(auto)]

ghost use Rattle.std.specs.Prelude.{◌≡◌, ℕ, ◌≤◌, ◌<◌, ◌^◌, length};
ghost use Rattle.block.specs.Limits.{list_inputs, given_rows, smaller_rows};
ghost use Rattle.block.specs.Words.{of_rows, rows_of};
ghost use Rattle.block.specs.Measure.{shift};
ghost use Rattle.pair_laws.specs.Theorem.{Disjoint, taken, covered};
ghost use Rattle.flat_rows.specs.Listing.{Listed};

// What all rows take from R.
pub fn taken_of(n: usize, masks: &[u32], values: &[u32], words: &[u32], missing: u32) -> u32
    requires n_le_list_inputs { (n ≤ list_inputs) × Listed smaller_rows masks.now values.now words.now }
    requires disjoint { Disjoint n (rows_of masks.now values.now words.now) }
    ensures { result ≡ taken missing n (rows_of masks.now values.now words.now) }
{
    let p = masks.len();
    let mut sum: u32 = 0;
    for i in 0..p {
        sum += pair_weights::takes_of(n, masks[i], words[i], missing);
    }
    sum
}

// How many points the rows cover.
fn covered_of(n: usize, masks: &[u32], values: &[u32], words: &[u32]) -> u32
    requires n_le_list_inputs { (n ≤ list_inputs) × Listed given_rows masks.now values.now words.now }
    requires disjoint { Disjoint n (rows_of masks.now values.now words.now) }
    ensures { result ≡ covered n (rows_of masks.now values.now words.now) }
{
    let p = masks.len();
    let mut sum: u32 = 0;
    for i in 0..p {
        sum += pair_weights::row_points(n, masks[i]);
    }
    sum
}

// A word of missing points that gives the same R: none where the rows cover every point, so that a list of fd without a missing point costs
// what it costs as fr.
pub fn missing_in(n: usize, masks: &[u32], values: &[u32], words: &[u32], missing: u32) -> u32
    requires n_le_list_inputs { (n ≤ list_inputs) × Listed given_rows masks.now values.now words.now }
    requires disjoint { Disjoint n (rows_of masks.now values.now words.now) }
    ensures { (t : ℕ) → t < 2 ^ n → shift (of_rows result (rows_of masks.now values.now words.now)) n t ≡ shift (of_rows missing (rows_of masks.now values.now words.now)) n t }
{
    if covered_of(n, masks, values, words) == bit_work::power(n) {
        return 65535;
    }
    missing
}
