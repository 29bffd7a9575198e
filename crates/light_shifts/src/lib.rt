// R of a list of rows at light numbers, those with at most w one-bits, where w is at most 3: few of them lie in a cube, so that each pair of
// rows that counts adds its weight at those in an array by t, and no number is tried against each cube. `missing` is the word of a missing
// point, as in row_shifts. What one cube adds to the array is in light_adding. Every function here is inner.
#![tactic(auto)]

ghost use Rattle.std.specs.Prelude.{◌≡◌, ℕ, ◌+◌, ◌-◌, ◌*◌, ◌≤◌, ◌<◌, ◌^◌, length};
ghost use Rattle.std.specs.Int.Count.{ones};
ghost use Rattle.slices.specs.Places.{at, tab, over};
ghost use Rattle.block.specs.Limits.{list_inputs, given_rows};
ghost use Rattle.block.specs.Words.{of_rows, rows_of};
ghost use Rattle.block.specs.Measure.{shift};
ghost use Rattle.pair_laws.specs.Theorem.{Disjoint, often};
ghost use Rattle.pair_laws.specs.Symmetric.{hit, cubes_of};
ghost use Rattle.pair_weights.specs.Places.{cube_of};
ghost use Rattle.flat_rows.specs.Listing.{Listed};
ghost use Rattle.light_laws.specs.Ways.{lit};
ghost use Rattle.light_adding.specs.Raised.{Below};
ghost use Rattle.light_shifts.specs.Adding.{light_sums};

use block::LIST_POINTS;

// The cube of the rows i and j, whose points count so many times, adds its weight at the light numbers in it.
fn add_pair(
    n: usize,
    w: usize,
    masks: &[u32],
    values: &[u32],
    i: usize,
    j: usize,
    times: u32,
    acc: &mut [u32],
)
    requires n_le_list_inputs { (n ≤ list_inputs) × (w ≤ 3) × (i < length masks.now) × (j < length masks.now) × (length values.now ≡ length masks.now) }
    requires i_bound { (at masks.now i < 2 ^ n) × (at masks.now j < 2 ^ n) × (times ≤ 2) }
    requires acc_len { (length acc.old ≡ 2 ^ n) × Below (2 ^ 28) acc.old }
    ensures { acc.new ≡ tab (2 ^ n) (λ t. at acc.old t + lit w t (hit t (cube_of n times masks.now values.now i j))) }
{
    let mask = masks[i];
    let mask2 = masks[j];
    let both = mask & mask2;
    let value = both & (values[i] ^ values[j]);
    let weight = pair_weights::weight_of(n, mask, mask2, i == j, times);
    light_adding::add_light(n, w, both, value, weight, acc);
}

// The cubes of all pairs of rows that count, i up to j.
fn add_pairs(
    n: usize,
    w: usize,
    masks: &[u32],
    values: &[u32],
    words: &[u32],
    missing: u32,
    more: u32,
    acc: &mut [u32],
)
    requires n_le_list_inputs { (n ≤ list_inputs) × (w ≤ 3) × (more ≤ 1) × Listed given_rows masks.now values.now words.now }
    requires disjoint { Disjoint n (rows_of masks.now values.now words.now) }
    requires acc_len { (length acc.old ≡ 2 ^ n) × ((t : ℕ) → at acc.old t ≡ 0) }
    ensures { acc.new ≡ light_sums n w (cubes_of (often missing more) n (rows_of masks.now values.now words.now)) }
{
    let p = masks.len();
    for i in 0..p {
        for j in i..p {
            let times = pair_weights::times_of(words[i], words[j], missing, more);
            if 0 < times {
                add_pair(n, w, masks, values, i, j, times, acc);
            }
        }
    }
}

// Each entry of `out` is what the array has at the number in its place, with `points` more and `less` less.
fn put_at(acc: &[u32], points: u32, less: u32, ts: &[u32], places: usize, out: &mut [u32])
    requires places_in_bounds { (places ≤ length ts.now) × (places ≤ length out.old) × (points ≤ 2 ^ list_inputs) }
    requires by_index { (i : ℕ) → i < places → at ts.now i < length acc.now }
    requires by_index_2 { (i : ℕ) → i < places → at acc.now (at ts.now i) ≤ 2 ^ list_inputs * 2 }
    requires by_index_3 { (i : ℕ) → i < places → less ≤ points + at acc.now (at ts.now i) }
    ensures { out.new ≡ over (tab places (λ i. points + at acc.now (at ts.now i) - less)) out.old }
{
    for i in 0..places {
        out[i] = points + acc[ts[i] as usize] - less;
    }
}

// R of a list of disjoint rows at each t of a list of light numbers below 2^n, by its place there, in an array of zeros.
fn shifts_in(
    n: usize,
    w: usize,
    masks: &[u32],
    values: &[u32],
    words: &[u32],
    missing: u32,
    acc: &mut [u32],
    ts: &[u32],
    places: usize,
    out: &mut [u32],
)
    requires n_le_list_inputs { (n ≤ list_inputs) × (w ≤ 3) × Listed given_rows masks.now values.now words.now }
    requires disjoint { Disjoint n (rows_of masks.now values.now words.now) }
    requires acc_len { (length acc.old ≡ 2 ^ n) × ((t : ℕ) → at acc.old t ≡ 0) }
    requires places_in_bounds { (places ≤ length ts.now) × (places ≤ length out.old) × ((i : ℕ) → i < places → at ts.now i < 2 ^ n) }
    requires by_index { (i : ℕ) → i < places → ones (at ts.now i) ≤ w }
    ensures { out.new ≡ over (tab places (λ i. shift (of_rows missing (rows_of masks.now values.now words.now)) n (at ts.now i))) out.old }
{
    let more = pair_weights::missing_counts(missing);
    let points = pair_weights::points_of(n, missing);
    let less = missing_points::taken_of(n, masks, values, words, missing);
    add_pairs(n, w, masks, values, words, missing, more, acc);
    put_at(acc, points, less, ts, places, out);
}

// The same in an array of its own.
pub fn light_shifts(
    n: usize,
    w: usize,
    masks: &[u32],
    values: &[u32],
    words: &[u32],
    missing: u32,
    ts: &[u32],
    places: usize,
    out: &mut [u32],
)
    requires n_le_list_inputs { (n ≤ list_inputs) × (w ≤ 3) × Listed given_rows masks.now values.now words.now }
    requires disjoint { Disjoint n (rows_of masks.now values.now words.now) }
    requires places_in_bounds { (places ≤ length ts.now) × (places ≤ length out.old) × ((i : ℕ) → i < places → at ts.now i < 2 ^ n) }
    requires by_index { (i : ℕ) → i < places → ones (at ts.now i) ≤ w }
    ensures { out.new ≡ over (tab places (λ i. shift (of_rows missing (rows_of masks.now values.now words.now)) n (at ts.now i))) out.old }
{
    let word = missing_points::missing_in(n, masks, values, words, missing);
    let size = bit_work::size(n);
    let mut acc = [0u32; LIST_POINTS];
    shifts_in(
        n,
        w,
        masks,
        values,
        words,
        word,
        &mut acc[..size],
        ts,
        places,
        out,
    );
}
