// R of a list of rows by cubes (document 003, Theorem 1), one for each pair of rows that counts: at one t, pair by pair; and at each t of a
// list, with the parts of the cubes laid out in three slices. `missing` is the word of a missing point: with no output (type fr) the pairs
// with equal words count; with word 0 (type fd) every pair does whose words are others, twice where they are equal, all points count once,
// and each such row takes its own twice (missing_points). What one pair adds is in pair_weights. Every function here is inner.
#![tactic(auto)]

ghost use Rattle.std.specs.Prelude.{◌≡◌, cond, ℕ, ◌+◌, ◌-◌, ◌*◌, ◌≤◌, ◌<◌, ◌^◌, eqb, length, set};
ghost use Rattle.std.specs.Int.Bits.{bit_and, bit_xor, bit_or};
ghost use Rattle.std.specs.Int.Count.{ones};
ghost use Rattle.slices.specs.Places.{at, tab, over};
ghost use Rattle.block.specs.Limits.{list_inputs, given_rows, smaller_rows};
ghost use Rattle.block.specs.Words.{of_rows, rows_of};
ghost use Rattle.block.specs.Measure.{shift};
ghost use Rattle.pair_laws.specs.Cube.{Sound};
ghost use Rattle.pair_laws.specs.Theorem.{Every, Disjoint, counts, often};
ghost use Rattle.pair_laws.specs.Symmetric.{added, cubes_of};
ghost use Rattle.flat_rows.specs.Listing.{Listed};
ghost use Rattle.row_shifts.specs.Stored.{Roomy, CubesAt, added_by};

use block::GIVEN_ROWS;

// The cubes of the rows given: one for each pair i up to j.
pub const CUBES: usize = GIVEN_ROWS * (GIVEN_ROWS + 1) / 2;

// Those of a short list, and of one that is not long.
pub const FEW_ROWS: usize = 16;

pub const FEW_CUBES: usize = FEW_ROWS * (FEW_ROWS + 1) / 2;

pub const SOME_ROWS: usize = 64;

pub const SOME_CUBES: usize = SOME_ROWS * (SOME_ROWS + 1) / 2;

// Puts the cube of the rows i and j, whose points count so many times, at a place of the three slices.
pub fn put_cube(
    n: usize,
    masks: &[u32],
    values: &[u32],
    i: usize,
    j: usize,
    times: u32,
    cube_masks: &mut [u32],
    cube_values: &mut [u32],
    cube_weights: &mut [u32],
    place: usize,
)
    requires n_le_list_inputs { (n ≤ list_inputs) × (i < length masks.now) × (j < length masks.now) × (length values.now ≡ length masks.now) }
    requires i_bound { (at masks.now i < 2 ^ n) × (at masks.now j < 2 ^ n) × (times ≤ 2) }
    requires place_in_bounds { (place < length cube_masks.old) × (place < length cube_values.old) × (place < length cube_weights.old) }
    ensures cube_masks_after { cube_masks.new ≡ set cube_masks.old place (bit_and (at masks.now i) (at masks.now j)) }
    ensures cube_values_after { cube_values.new ≡ set cube_values.old place (bit_and (bit_and (at masks.now i) (at masks.now j)) (bit_xor (at values.now i) (at values.now j))) }
    ensures cube_weights_after { cube_weights.new ≡ set cube_weights.old place (2 ^ (n - ones (bit_or (at masks.now i) (at masks.now j))) * cond (eqb i j) 1 2 * times) }
{
    let mask = masks[i];
    let mask2 = masks[j];
    cube_masks[place] = mask & mask2;
    cube_values[place] = (mask & mask2) & (values[i] ^ values[j]);
    cube_weights[place] = pair_weights::weight_of(n, mask, mask2, i == j, times);
}

// Puts the cubes of all pairs of rows that count, i up to j, in the order of the loops, and answers how many there are.
pub fn put_cubes(
    n: usize,
    masks: &[u32],
    values: &[u32],
    words: &[u32],
    missing: u32,
    more: u32,
    cube_masks: &mut [u32],
    cube_values: &mut [u32],
    cube_weights: &mut [u32],
) -> usize
    requires n_le_list_inputs { (n ≤ list_inputs) × (more ≤ 1) × Listed given_rows masks.now values.now words.now }
    requires every { Every (Sound n) (rows_of masks.now values.now words.now) }
    requires roomy { Roomy (length masks.now) (length cube_masks.old) (length cube_values.old) (length cube_weights.old) }
    ensures { CubesAt (cubes_of (often missing more) n (rows_of masks.now values.now words.now))
        cube_masks.old cube_values.old cube_weights.old
        cube_masks.new cube_values.new cube_weights.new result }
{
    let p = masks.len();
    let mut count: usize = 0;
    for i in 0..p {
        for j in i..p {
            let times = pair_weights::times_of(words[i], words[j], missing, more);
            if 0 < times {
                put_cube(
                    n,
                    masks,
                    values,
                    i,
                    j,
                    times,
                    cube_masks,
                    cube_values,
                    cube_weights,
                    count,
                );
                count += 1;
            }
        }
    }
    count
}

// What the cubes add up to at t.
pub fn shift_by_cubes(
    cube_masks: &[u32],
    cube_values: &[u32],
    cube_weights: &[u32],
    count: usize,
    t: u32,
) -> u32
    requires count_in_bounds { (count ≤ length cube_masks.now) × (count ≤ length cube_values.now) × (count ≤ length cube_weights.now) }
    requires t_bound { added_by cube_masks.now cube_values.now cube_weights.now count t ≤ 2 ^ list_inputs * 2 }
    ensures { result ≡ added_by cube_masks.now cube_values.now cube_weights.now count t }
{
    let mut sum: u32 = 0;
    for q in 0..count {
        sum += pair_weights::cube_adds(cube_masks[q], cube_values[q], cube_weights[q], t);
    }
    sum
}

// The same number in each of so many entries.
fn put_all(x: u32, places: usize, out: &mut [u32])
    requires { places ≤ length out.old }
    ensures { out.new ≡ over (tab places (λ _. x)) out.old }
{
    out[..places].fill(x);
}

// To each entry comes what the cubes add up to at the t in its place, and `less` goes from it.
pub fn shifts_by_cubes(
    cube_masks: &[u32],
    cube_values: &[u32],
    cube_weights: &[u32],
    count: usize,
    less: u32,
    ts: &[u32],
    places: usize,
    out: &mut [u32],
)
    requires count_in_bounds { (count ≤ length cube_masks.now) × (count ≤ length cube_values.now) × (count ≤ length cube_weights.now) }
    requires places_in_bounds { (places ≤ length ts.now) × (places ≤ length out.old) }
    requires by_index { (i : ℕ) → i < places → at out.old i ≤ 2 ^ list_inputs }
    requires by_index_2 { (i : ℕ) → i < places → added_by cube_masks.now cube_values.now cube_weights.now count (at ts.now i) ≤ 2 ^ list_inputs * 2 }
    requires by_index_3 { (i : ℕ) → i < places → less ≤ at out.old i + added_by cube_masks.now cube_values.now cube_weights.now count (at ts.now i) }
    ensures { out.new ≡ over (tab places (λ i. at out.old i + added_by cube_masks.now cube_values.now cube_weights.now count (at ts.now i) - less)) out.old }
{
    for i in 0..places {
        let more = shift_by_cubes(cube_masks, cube_values, cube_weights, count, ts[i]);
        out[i] = out[i] + more - less;
    }
}

// What all pairs of rows that count add at t. No cube is stored.
fn pairs_add(
    n: usize,
    masks: &[u32],
    values: &[u32],
    words: &[u32],
    missing: u32,
    more: u32,
    t: u32,
) -> u32
    requires n_le_list_inputs { (n ≤ list_inputs) × (t < 2 ^ n) × (more ≤ 1) × Listed smaller_rows masks.now values.now words.now }
    requires disjoint { Disjoint n (rows_of masks.now values.now words.now) }
    ensures { result ≡ added t (cubes_of (often missing more) n (rows_of masks.now values.now words.now)) }
{
    let p = masks.len();
    let mut sum: u32 = 0;
    for i in 0..p {
        for j in i..p {
            let times = pair_weights::times_of(words[i], words[j], missing, more);
            if 0 < times {
                sum += pair_weights::pair_adds(n, masks, values, i, j, times, t);
            }
        }
    }
    sum
}

// R(t) of a list of disjoint rows.
pub fn shift_of_rows(
    n: usize,
    masks: &[u32],
    values: &[u32],
    words: &[u32],
    missing: u32,
    t: u32,
) -> u32
    requires n_le_list_inputs { (n ≤ list_inputs) × (t < 2 ^ n) × Listed smaller_rows masks.now values.now words.now }
    requires disjoint { Disjoint n (rows_of masks.now values.now words.now) }
    ensures { result ≡ shift (of_rows missing (rows_of masks.now values.now words.now)) n t }
{
    let more = pair_weights::missing_counts(missing);
    let points = pair_weights::points_of(n, missing);
    let less = missing_points::taken_of(n, masks, values, words, missing);
    points + pairs_add(n, masks, values, words, missing, more, t) - less
}

// R of a list of disjoint rows at each t of a list of numbers below 2^n, by its place there, from the cubes of all pairs, for which there is
// working room.
pub fn shifts_in_room(
    n: usize,
    masks: &[u32],
    values: &[u32],
    words: &[u32],
    missing: u32,
    cube_masks: &mut [u32],
    cube_values: &mut [u32],
    cube_weights: &mut [u32],
    ts: &[u32],
    places: usize,
    out: &mut [u32],
)
    requires n_le_list_inputs { (n ≤ list_inputs) × Listed given_rows masks.now values.now words.now }
    requires disjoint { Disjoint n (rows_of masks.now values.now words.now) }
    requires roomy { Roomy (length masks.now) (length cube_masks.old) (length cube_values.old) (length cube_weights.old) }
    requires places_in_bounds { (places ≤ length ts.now) × (places ≤ length out.old) × ((i : ℕ) → i < places → at ts.now i < 2 ^ n) }
    ensures { out.new ≡ over (tab places (λ i. shift (of_rows missing (rows_of masks.now values.now words.now)) n (at ts.now i))) out.old }
{
    let more = pair_weights::missing_counts(missing);
    let points = pair_weights::points_of(n, missing);
    let less = missing_points::taken_of(n, masks, values, words, missing);
    put_all(points, places, out);
    let count = put_cubes(
        n,
        masks,
        values,
        words,
        missing,
        more,
        cube_masks,
        cube_values,
        cube_weights,
    );
    shifts_by_cubes(
        cube_masks,
        cube_values,
        cube_weights,
        count,
        less,
        ts,
        places,
        out,
    );
}

// The same in room of its own. Room is cleared at each call, which would take a short list longer than its work if it were room for the
// longest.
fn shifts_by_room(
    n: usize,
    masks: &[u32],
    values: &[u32],
    words: &[u32],
    missing: u32,
    ts: &[u32],
    places: usize,
    out: &mut [u32],
)
    requires n_le_list_inputs { (n ≤ list_inputs) × Listed given_rows masks.now values.now words.now }
    requires disjoint { Disjoint n (rows_of masks.now values.now words.now) }
    requires places_in_bounds { (places ≤ length ts.now) × (places ≤ length out.old) × ((i : ℕ) → i < places → at ts.now i < 2 ^ n) }
    ensures { out.new ≡ over (tab places (λ i. shift (of_rows missing (rows_of masks.now values.now words.now)) n (at ts.now i))) out.old }
{
    if masks.len() <= FEW_ROWS {
        let mut few_masks = [0u32; FEW_CUBES];
        let mut few_values = [0u32; FEW_CUBES];
        let mut few_weights = [0u32; FEW_CUBES];
        shifts_in_room(
            n,
            masks,
            values,
            words,
            missing,
            &mut few_masks,
            &mut few_values,
            &mut few_weights,
            ts,
            places,
            out,
        );
        return;
    }
    if masks.len() <= SOME_ROWS {
        let mut some_masks = [0u32; SOME_CUBES];
        let mut some_values = [0u32; SOME_CUBES];
        let mut some_weights = [0u32; SOME_CUBES];
        shifts_in_room(
            n,
            masks,
            values,
            words,
            missing,
            &mut some_masks,
            &mut some_values,
            &mut some_weights,
            ts,
            places,
            out,
        );
        return;
    }
    let mut cube_masks = [0u32; CUBES];
    let mut cube_values = [0u32; CUBES];
    let mut cube_weights = [0u32; CUBES];
    shifts_in_room(
        n,
        masks,
        values,
        words,
        missing,
        &mut cube_masks,
        &mut cube_values,
        &mut cube_weights,
        ts,
        places,
        out,
    );
}

// R of a list of disjoint rows at each t of a list of numbers below 2^n, by its place there.
pub fn shifts_of_rows(
    n: usize,
    masks: &[u32],
    values: &[u32],
    words: &[u32],
    missing: u32,
    ts: &[u32],
    places: usize,
    out: &mut [u32],
)
    requires n_le_list_inputs { (n ≤ list_inputs) × Listed given_rows masks.now values.now words.now }
    requires disjoint { Disjoint n (rows_of masks.now values.now words.now) }
    requires places_in_bounds { (places ≤ length ts.now) × (places ≤ length out.old) × ((i : ℕ) → i < places → at ts.now i < 2 ^ n) }
    ensures { out.new ≡ over (tab places (λ i. shift (of_rows missing (rows_of masks.now values.now words.now)) n (at ts.now i))) out.old }
{
    let word = missing_points::missing_in(n, masks, values, words, missing);
    shifts_by_room(n, masks, values, words, word, ts, places, out);
}
