// T, sigma and both measures of a list of rows, where a missing point has the word `missing`: R of every number in the walk, the quicker way,
// and the choice. Every function here is inner.
#![tactic(auto)]

ghost use Rattle.std.specs.Prelude.{◌≡◌, true, ℕ, ◌≤◌, ◌<◌, ◌^◌, length};
ghost use Rattle.std.specs.Int.Count.{ones};
ghost use Rattle.slices.specs.Places.{at, tab, over};
ghost use Rattle.block.specs.Limits.{list_inputs, given_rows};
ghost use Rattle.block.specs.Words.{of_rows, rows_of};
ghost use Rattle.block.specs.Measure.{shift};
ghost use Rattle.pair_laws.specs.Theorem.{Disjoint};
ghost use Rattle.flat_rows.specs.Listing.{Listed};
ghost use Rattle.walks.specs.Walk.{walk};
ghost use Rattle.choosing.specs.Found.{Found};

use block::{LIST_POINTS, Measures};
use candidate_list::{PRINTED_LIMIT, PRINTED_NUMBERS};

// Whether R is added up in an array by number, pair by pair. That takes an array for every number below 2^16, which is cleared, so it is not
// worth while for few rows or few inputs; and only light numbers are added to.
fn is_by_number(n: usize, w: usize, rows: usize) -> bool
    ensures { result ≡ true → w ≤ 3 }
{
    w <= 3 && 8 < n && 16 < rows
}

// R of a list of disjoint rows at each t of a list of numbers below 2^n with at most w one-bits, by its place there.
fn shifts_of(
    n: usize,
    w: usize,
    masks: &[u32],
    values: &[u32],
    words: &[u32],
    missing: u32,
    ts: &[u32],
    places: usize,
    out: &mut [u32],
)
    requires n_le_list_inputs { (n ≤ list_inputs) × Listed given_rows masks.now values.now words.now }
    requires disjoint { Disjoint n (rows_of masks.now values.now words.now) }
    requires places_in_bounds { (places ≤ length ts.now) × (places ≤ length out.old) × ((i : ℕ) → i < places → at ts.now i < 2 ^ n) }
    requires by_index { (i : ℕ) → i < places → ones (at ts.now i) ≤ w }
    ensures { out.new ≡ over (tab places (λ i. shift (of_rows missing (rows_of masks.now values.now words.now)) n (at ts.now i))) out.old }
{
    if is_by_number(n, w, masks.len()) {
        light_shifts::light_shifts(n, w, masks, values, words, missing, ts, places, out);
        return;
    }
    row_shifts::shifts_of_rows(n, masks, values, words, missing, ts, places, out);
}

// T, sigma and both measures of a list of disjoint rows, in working room for the walk and for R at its numbers.
fn find_basis_in(
    n: usize,
    w: usize,
    masks: &[u32],
    values: &[u32],
    words: &[u32],
    missing: u32,
    candidates: &mut [u32],
    shifts: &mut [u32],
    basis: &mut [u32],
    sigma: &mut [u32],
) -> Measures
    requires n_le_list_inputs { (n ≤ list_inputs) × (1 ≤ w) × (w ≤ n) × (n ≤ length basis.old) × (n ≤ length sigma.old) }
    requires w_in_bounds { (length (walk n w) ≤ length candidates.old) × (length (walk n w) < length shifts.old) }
    requires listed { Listed given_rows masks.now values.now words.now }
    requires disjoint { Disjoint n (rows_of masks.now values.now words.now) }
    ensures { Found (of_rows missing (rows_of masks.now values.now words.now)) n w basis.old sigma.old basis.new sigma.new result }
{
    let count = walks::put_walk(n, w, candidates);
    shifts_of(
        n, w, masks, values, words, missing, candidates, count, shifts,
    );
    choosing::choose_basis(candidates, shifts, count, n, w, basis, sigma)
}

// T, sigma and both measures of a list of disjoint rows. Room is cleared at each call, which takes longer than the work of a short list if
// it is room for every number below 2^16; and with few inputs, or with a weight limit of 3, the program's, few numbers are in the walk: with
// such a limit those of the printed list.
pub fn find_basis(
    n: usize,
    w: usize,
    masks: &[u32],
    values: &[u32],
    words: &[u32],
    missing: u32,
    basis: &mut [u32],
    sigma: &mut [u32],
) -> Measures
    requires n_le_list_inputs { (n ≤ list_inputs) × (1 ≤ w) × (w ≤ n) × (n ≤ length basis.old) × (n ≤ length sigma.old) }
    requires listed { Listed given_rows masks.now values.now words.now }
    requires disjoint { Disjoint n (rows_of masks.now values.now words.now) }
    ensures { Found (of_rows missing (rows_of masks.now values.now words.now)) n w basis.old sigma.old basis.new sigma.new result }
{
    if n <= 8 {
        let mut small_candidates = [0u32; 256];
        let mut small_shifts = [0u32; 256];
        return find_basis_in(
            n,
            w,
            masks,
            values,
            words,
            missing,
            &mut small_candidates,
            &mut small_shifts,
            basis,
            sigma,
        );
    }
    if w <= PRINTED_LIMIT {
        let mut few_candidates = [0u32; PRINTED_NUMBERS];
        let mut few_shifts = [0u32; PRINTED_NUMBERS + 1];
        return find_basis_in(
            n,
            w,
            masks,
            values,
            words,
            missing,
            &mut few_candidates,
            &mut few_shifts,
            basis,
            sigma,
        );
    }
    let mut candidates = [0u32; LIST_POINTS];
    let mut shifts = [0u32; LIST_POINTS];
    find_basis_in(
        n,
        w,
        masks,
        values,
        words,
        missing,
        &mut candidates,
        &mut shifts,
        basis,
        sigma,
    )
}
