// A model that was read, evaluated at a point (02, Ticket 4): the checks in the order of 01's numbers, with what they look at, and the word
// by the patterns that drive each output. The operation is `model_value` of the crate models. All functions here are inner.
#![tactic(auto)]

ghost use Rattle.std.specs.Prelude.{◌≡◌, not, ◌||◌, [], ◌∷◌, ◌+◌, ◌*◌, ◌^◌, ◌≤◌, ◌<◌, eqb, ltb, length};
ghost use Rattle.slices.specs.Places.{first};
ghost use Rattle.sums.specs.Sums.{one};
ghost use Rattle.block.specs.Limits.{list_inputs, outputs};
ghost use Rattle.block.specs.Refusals.{verdict, and_then};
ghost use Rattle.block.specs.Model.{pattern};
ghost use Rattle.block.specs.ModelRead.{patterns_flat, bad_pattern, total};
ghost use Rattle.model_values.specs.Checks.{bad_at, pattern_check, value_checked};
ghost use Rattle.model_values.specs.Driven.{driven_at, driven_word};

use block::{Answer, FD, LIST_INPUTS};

// How many patterns two slices hold: none where their lengths differ.
pub fn pattern_count(masks: &[u32], values: &[u32]) -> usize
    ensures { result ≡ length (patterns_flat masks.now values.now) }
{
    if values.len() != masks.len() {
        return 0;
    }
    masks.len()
}

// Whether counts add up to the number of patterns.
pub fn is_total(counts: &[usize], count: usize) -> bool
    ensures { result ≡ eqb (total counts.now) count }
{
    let mut rest = count;
    for c in counts {
        if rest < *c {
            return false;
        }
        rest -= *c;
    }
    rest == 0
}

// Whether a matrix, the counts or the patterns are not as many as they should be.
pub fn is_unfit(rows: usize, n: usize, counts: &[usize], k: usize, count: usize) -> bool
    ensures { result ≡ not (eqb rows n) || (not (eqb (length counts.now) k) || not (eqb (total counts.now) count)) }
{
    rows != n || counts.len() != k || !is_total(counts, count)
}

// Whether a pattern is malformed: it is a row without a word.
pub fn is_bad_pattern(n: usize, mask: u32, values: u32) -> bool
    requires { n ≤ list_inputs }
    ensures { result ≡ bad_pattern n (pattern mask values) }
{
    flat_rows::is_bad_row(n, 1, mask, values, 0)
}

// The least malformed pattern of the first ones, or their number.
pub fn first_bad_pattern(n: usize, count: usize, masks: &[u32], values: &[u32]) -> usize
    requires { (n ≤ list_inputs) × (count ≤ length masks.now) × (count ≤ length values.now) }
    ensures { result ≡ first count (bad_at n masks.now values.now) }
{
    for i in 0..count {
        if is_bad_pattern(n, masks[i], values[i]) {
            return i;
        }
    }
    count
}

// 6 for the patterns.
pub fn then_patterns(v: Answer, n: usize, count: usize, masks: &[u32], values: &[u32]) -> Answer
    requires { (v.number ≡ 0 → n ≤ list_inputs) × (count ≡ length (patterns_flat masks.now values.now)) }
    ensures { result ≡ and_then v (verdict (pattern_check n (patterns_flat masks.now values.now) ∷ [])) }
{
    if v.number != 0 {
        return v;
    }
    let i = first_bad_pattern(n, count, masks, values);
    shared_checks::refuse_where(i < count, 6, 0, i)
}

// The verdict but for 8.
pub fn value_checked(
    n: usize,
    k: usize,
    x: usize,
    sigma: &[u32],
    counts: &[usize],
    masks: &[u32],
    values: &[u32],
) -> Answer
    ensures { result ≡ verdict (value_checked n k x sigma.now counts.now (patterns_flat masks.now values.now)) }
{
    // a model has no type: either lets the sizes through
    let sizes = shared_checks::sizes(LIST_INPUTS, n, k, FD);
    let size = shared_checks::size_of(n);
    let below = x < size;
    let point = shared_checks::then_where(sizes, !below, 3, 0, 0);
    let count = pattern_count(masks, values);
    let unfit = is_unfit(sigma.len(), n, counts, k, count);
    let whole = shared_checks::then_where(point, unfit, 4, 0, 0);
    let matrix = table_checks::then_matrix(whole, n, sigma);
    then_patterns(matrix, n, count, masks, values)
}

// The first of `count` patterns from a place on that z lies under, or their number.
pub fn first_driving(masks: &[u32], values: &[u32], from: usize, count: usize, z: u32) -> usize
    requires { (from + count ≤ length masks.now) × (from + count ≤ length values.now) }
    ensures { result ≡ first count (λ i. driven_at masks.now values.now z (from + i)) }
{
    for i in 0..count {
        if masks[from + i] & z == values[from + i] {
            return i;
        }
    }
    count
}

// Whether z lies under one of `count` patterns from a place on.
pub fn is_driven(masks: &[u32], values: &[u32], from: usize, count: usize, z: u32) -> bool
    requires { (from + count ≤ length masks.now) × (from + count ≤ length values.now) }
    ensures { result ≡ ltb (first count (λ i. driven_at masks.now values.now z (from + i))) count }
{
    first_driving(masks, values, from, count, z) < count
}

// A power where something holds, and else 0.
pub fn weighed(holds: bool, power: u32) -> u32
    ensures value { result ≡ one holds * power }
    ensures upper_bound { result ≤ power }
{
    if holds { power } else { 0 }
}

// The word at z: its bit j is 1 where some pattern of output j has z under it.
pub fn driven_word(k: usize, counts: &[usize], masks: &[u32], values: &[u32], z: u32) -> u32
    requires { (k ≤ outputs) × (length counts.now ≡ k) × (total counts.now ≤ length masks.now) × (total counts.now ≤ length values.now) }
    ensures { result ≡ driven_word k counts.now masks.now values.now z }
{
    let mut word: u32 = 0;
    let mut power: u32 = 1;
    let mut from: usize = 0;
    for j in 0..k {
        let count = counts[j];
        word += weighed(is_driven(masks, values, from, count, z), power);
        power *= 2;
        from += count;
    }
    word
}
