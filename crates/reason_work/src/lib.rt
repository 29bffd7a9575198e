// Why a number t was not taken (02, Ticket 7), of a list that passed its checks: the taken numbers are found, and the first reason that holds is
// told by them. Every function here is inner.
#![tactic(auto)]

ghost use Rattle.std.specs.Prelude.{◌≡◌, ◌≤◌, ◌<◌, ◌^◌, length};
ghost use Rattle.slices.specs.Places.{at, over};
ghost use Rattle.block.specs.Limits.{list_inputs, given_rows};
ghost use Rattle.block.specs.Words.{of_rows, rows_of};
ghost use Rattle.block.specs.Basis.{apply, basis_of};
ghost use Rattle.block.specs.Reasons.{place_of, set_of, reason, reason_of};
ghost use Rattle.pair_laws.specs.Theorem.{Disjoint};
ghost use Rattle.flat_rows.specs.Listing.{Listed};

use block::{LIST_INPUTS, Reason};

// The step that took t, less 1; n where none did.
fn place_of(taken: &[u32], n: usize, t: u32) -> usize
    requires { n ≤ length taken.now }
    ensures { result ≡ place_of n (at taken.now) t }
{
    for j in 0..n {
        if taken[j] == t {
            return j;
        }
    }
    n
}

// The first reason that holds of t, by the taken numbers and the rows of sigma, which send t to its set.
fn reason_of(n: usize, w: usize, t: u32, taken: &[u32], sigma: &[u32]) -> Reason
    requires n_le_list_inputs { (n ≤ list_inputs) × (n ≤ length taken.now) × (n ≤ length sigma.now) × (t < 2 ^ n) }
    requires t_value { apply (at sigma.now) n t ≡ set_of n (at taken.now) t }
    ensures { result ≡ reason n w (at taken.now) t }
{
    if t == 0 {
        return Reason::Zero;
    }
    if w < u32::count_ones(t) as usize {
        return Reason::Over;
    }
    let place = place_of(taken, n, t);
    if place < n {
        return Reason::Taken(place + 1);
    }
    Reason::Xor(matrix_work::apply_rows(sigma, n, t))
}

// The first reason that holds of t, of a list of disjoint rows with the weight limit w; the taken numbers go to the front of `taken`.
pub fn find_reason(
    n: usize,
    w: usize,
    t: u32,
    masks: &[u32],
    values: &[u32],
    words: &[u32],
    missing: u32,
    taken: &mut [u32],
) -> Reason
    requires n_le_list_inputs { (n ≤ list_inputs) × (1 ≤ w) × (w ≤ n) × (n ≤ length taken.old) × (t < 2 ^ n) }
    requires listed { Listed given_rows masks.now values.now words.now }
    requires disjoint { Disjoint n (rows_of masks.now values.now words.now) }
    ensures value { result ≡ reason_of (of_rows missing (rows_of masks.now values.now words.now)) n w t }
    ensures taken_after { taken.new ≡ over (basis_of (of_rows missing (rows_of masks.now values.now words.now)) n w) taken.old }
{
    let mut sigma = [0u32; LIST_INPUTS];
    row_basis::find_basis(n, w, masks, values, words, missing, taken, &mut sigma);
    reason_of(n, w, t, taken, &sigma)
}
