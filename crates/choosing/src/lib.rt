// The choice of the basis by R: at each step the candidate that stands before the others, by the walk and the values at its places, and
// the matrix reached; T, sigma and both measures. Every function here is inner.
#![tactic(auto)]

ghost use Rattle.std.specs.Prelude.{◌≡◌, ◌≤◌, ◌<◌, ◌^◌, length};
ghost use Rattle.slices.specs.Places.{at, tab, over};
ghost use Rattle.block.specs.Limits.{list_inputs};
ghost use Rattle.block.specs.Basis.{before, best};
ghost use Rattle.choice_laws.specs.Chosen.{pick};
ghost use Rattle.matrix_laws.specs.Reach.{reach_rows};
ghost use Rattle.walks.specs.Walk.{Walked, value_at};
ghost use Rattle.choosing.specs.Steps.{candidate_by, ChosenBasis};

use block::Measures;

// The candidate that stands before the others, by the walk and the values of its numbers. Numbers of a smaller value than that of the best so
// far are passed over.
pub fn choose(
    walk: &[u32],
    values: &[u32],
    count: usize,
    s: &[u32],
    n: usize,
    k: usize,
    w: usize,
) -> u32
    requires count_in_bounds { (count ≤ length walk.now) × (count < length values.now) × (n ≤ length s.now) × (n ≤ list_inputs) × (k ≤ n) }
    requires walked { Walked n w walk.now count }
    ensures { result ≡ best (before (value_at walk.now values.now count)) (candidate_by (at s.now) n k w) (2 ^ n) }
{
    let mut b: u32 = 0;
    let mut top: u32 = 0;
    let mut place: usize = 0;
    // A while: the places of smaller values are passed over, so the step is no number known before.
    while place < count {
        let t = walk[place];
        let value = values[place];
        if candidates::is_better(s, n, k, t, value, b, top) {
            b = t;
            top = value;
        }
        place = walks::next_place(values, place + 1, count, top);
    }
    b
}

// The n numbers chosen by the values of the walk, and the matrix that sends them to 1, 2, 4, ..
pub fn choose_all(
    walk: &[u32],
    values: &[u32],
    count: usize,
    n: usize,
    w: usize,
    basis: &mut [u32],
    sigma: &mut [u32],
)
    requires count_in_bounds { (count ≤ length walk.now) × (count < length values.now) × (n ≤ length basis.old) × (n ≤ length sigma.old) × (n ≤ list_inputs) × (1 ≤ w) }
    requires walked { Walked n w walk.now count }
    ensures basis_after { basis.new ≡ over (tab n (pick (value_at walk.now values.now count) n w)) basis.old }
    ensures sigma_after { sigma.new ≡ over (tab n (reach_rows n (pick (value_at walk.now values.now count) n w) n)) sigma.old }
{
    matrix_work::put_units(sigma, n);
    for k in 0..n {
        let t = choose(walk, values, count, sigma, n, k, w);
        basis[k] = t;
        matrix_steps::advance(sigma, n, k, t);
    }
}

// T, the matrix that sends its columns to 1, 2, 4, .., and the sums of the values at the units and at the chosen numbers.
pub fn choose_basis(
    walk: &[u32],
    values: &[u32],
    count: usize,
    n: usize,
    w: usize,
    basis: &mut [u32],
    sigma: &mut [u32],
) -> Measures
    requires count_in_bounds { (count ≤ length walk.now) × (count < length values.now) × (n ≤ length basis.old) × (n ≤ length sigma.old) × (n ≤ list_inputs) × (1 ≤ w) }
    requires walked { Walked n w walk.now count }
    ensures { ChosenBasis (value_at walk.now values.now count) n w basis.old sigma.old basis.new sigma.new result }
{
    matrix_work::put_units(sigma, n);
    let before = walks::sum_of(walk, values, count, sigma, n);
    choose_all(walk, values, count, n, w, basis, sigma);
    let after = walks::sum_of(walk, values, count, basis, n);
    Measures { before, after }
}
