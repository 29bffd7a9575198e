// What the checks look at in a list of rows that lies in three flat slices: how many rows there are (4), how much room three lent
// slices give (5), and the least malformed row (6). All functions here are inner: the operations on lists and on row text call them.
#![tactic(auto)]

ghost use Rattle.std.specs.Prelude.{◌≡◌, [], ◌∷◌, ◌≤◌, ◌^◌, min, ltb, length};
ghost use Rattle.slices.specs.Places.{first};
ghost use Rattle.block.specs.Limits.{list_inputs, outputs, smaller_rows};
ghost use Rattle.block.specs.Words.{row, rows_of};
ghost use Rattle.block.specs.Refusals.{verdict, bad_row, row_at};
ghost use Rattle.block.specs.Lists.{bad_row_check};
ghost use Rattle.flat_rows.specs.Listing.{Listed};

use block::Answer;

// How many rows the slices hold: none where their lengths differ.
pub fn row_count(masks: &[u32], values: &[u32], words: &[u32]) -> usize
    ensures { result ≡ length (rows_of masks.now values.now words.now) }
{
    if values.len() != masks.len() {
        return 0;
    }
    if words.len() != masks.len() {
        return 0;
    }
    masks.len()
}

// The room for rows that three lent slices give: the shortest of their lengths.
pub fn least_room(masks: usize, values: usize, words: usize) -> usize
    ensures { result ≡ min masks (min values words) }
{
    masks.min(values.min(words))
}

// Whether x is below 2^n.
pub fn is_below(x: u32, n: usize) -> bool
    requires { n ≤ list_inputs }
    ensures { result ≡ ltb x (2 ^ n) }
{
    x < 1u32 << n
}

// Whether a row is malformed.
#[tactic(auto, unfolding(block::specs::Refusals::bad_row))]
pub fn is_bad_row(n: usize, k: usize, mask: u32, values: u32, word: u32) -> bool
    requires { (n ≤ list_inputs) × (k ≤ outputs) }
    ensures { result ≡ bad_row n k (row mask values word) }
{
    !is_below(mask, n) || !is_below(values, n) || !is_below(word, k) || mask & values != values
}

// The least malformed row, or the number of rows where there is none.
pub fn first_bad_row(n: usize, k: usize, masks: &[u32], values: &[u32], words: &[u32]) -> usize
    requires n_le_list_inputs { (n ≤ list_inputs) × (k ≤ outputs) × (length masks.now ≤ smaller_rows) }
    requires values_len { (length values.now ≡ length masks.now) × (length words.now ≡ length masks.now) }
    ensures { result ≡ first (length (rows_of masks.now values.now words.now)) (λ i. bad_row n k (row_at (rows_of masks.now values.now words.now) i)) }
{
    for i in 0..masks.len() {
        if is_bad_row(n, k, masks[i], values[i], words[i]) {
            return i;
        }
    }
    masks.len()
}

// 6: no row is malformed.
pub fn rows_formed(n: usize, k: usize, masks: &[u32], values: &[u32], words: &[u32]) -> Answer
    requires { (n ≤ list_inputs) × (k ≤ outputs) × Listed smaller_rows masks.now values.now words.now }
    ensures { result ≡ verdict (bad_row_check n k (rows_of masks.now values.now words.now) ∷ []) }
{
    let bad = first_bad_row(n, k, masks, values, words);
    shared_checks::refuse_where(bad < masks.len(), 6, 0, bad)
}
