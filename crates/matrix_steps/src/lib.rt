// The matrix reached, step by step: one step of it, and the check that the rows of a matrix are independent. Every function here is
// inner.
#![tactic(auto)]

ghost use Rattle.std.specs.Prelude.{◌≡◌, ℕ, ◌≤◌, ◌<◌, ◌^◌, length};
ghost use Rattle.slices.specs.Places.{at};
ghost use Rattle.block.specs.Limits.{list_inputs};
ghost use Rattle.block.specs.Refusals.{dependent};
ghost use Rattle.matrix_steps.specs.Steps.{Advanced};

// What step k + 1 did: the position exchanged with k, and the chosen number without bit k.
#[derive(Clone, Copy)]
pub struct Move {
    pub partner: usize,
    pub rest: u32,
}

// Step k + 1 of the matrix s, in which t was chosen.
pub fn advance(s: &mut [u32], n: usize, k: usize, t: u32) -> Move
    requires { (n ≤ length s.old) × (n ≤ list_inputs) × (k < n) }
    ensures { Advanced n k t s.old s.new result }
{
    let y = matrix_work::apply_rows(s, n, t);
    let partner = exchanges::partner_of(n, k, y);
    let rest = exchanges::rest_of(k, partner, y);
    matrix_work::exchange_rows(s, n, k, partner);
    matrix_work::shear_rows(s, n, k, rest);
    Move { partner, rest }
}

// The least row that is the XOR of some set of earlier rows, or n. The matrix m is working room.
pub fn first_dependent(n: usize, rows: &[u32], m: &mut [u32]) -> usize
    requires { (n ≤ length rows.now) × (n ≤ length m.old) × (n ≤ list_inputs) × ((j : ℕ) → j < n → at rows.now j < 2 ^ n) }
    ensures { result ≡ dependent n (at rows.now) }
{
    matrix_work::put_units(m, n);
    for j in 0..n {
        if matrix_work::apply_rows(m, n, rows[j]) < bit_work::power(j) {
            return j;
        }
        advance(m, n, j, rows[j]);
    }
    n
}
