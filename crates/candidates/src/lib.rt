// The candidates of a step, one at a time: their weight and the numbers that lack it, their order, whether one is no XOR of those chosen, and whether one takes the
// place of the best so far. The order of candidates is decided by is_before alone. Every function here is inner: the loops over the
// candidates stand in walks and choosing.
#![tactic(auto)]

ghost use Rattle.std.specs.Prelude.{◌≡◌, false, ◌&&◌, ◌||◌, ℕ, ◌≤◌, ◌^◌, eqb, leb, length};
ghost use Rattle.slices.specs.Places.{at};
ghost use Rattle.block.specs.Limits.{list_inputs};
ghost use Rattle.block.specs.Basis.{before, apply};
ghost use Rattle.candidates.specs.Light.{light};
ghost use Rattle.candidates.specs.Stride.{Skips};

// Whether t has 1 to w one-bits.
#[tactic(auto, unfolding(crate::specs::Light::light))]
pub fn is_light(w: usize, t: u32) -> bool
    requires { w ≤ list_inputs }
    ensures { result ≡ light w t }
{
    let ones = t.count_ones();
    1 <= ones && ones <= w as u32
}

// How many numbers from t on, which does not have 1 to w one-bits, do not have them either, seen from t alone: where t is a multiple of 16
// with too many one-bits, the 15 numbers behind it have no fewer.
pub fn stride(w: usize, t: u32) -> usize
    requires { (w ≤ list_inputs) × (light w t ≡ false) }
    ensures { Skips w t result }
{
    if t % 16 == 0 && t.count_ones() > w as u32 {
        16
    } else {
        1
    }
}

// Whether a stands before b in the order of candidates, by the values of the two: the greater value, at equal values fewer one-bits, at
// as many the smaller number.
#[tactic(auto, unfolding(block::specs::Basis::before))]
pub fn is_before(value: u32, a: u32, other: u32, b: u32) -> bool
    ensures { (r : ℕ → ℕ) → r a ≡ value → r b ≡ other → result ≡ before r a b }
{
    if value != other {
        return other < value;
    }
    let ones = a.count_ones();
    let others = b.count_ones();
    if ones != others {
        return ones < others;
    }
    a < b
}

// Whether t is no XOR of the k numbers that the matrix s sends to 1, 2, 4, ..: whether s sends it to something at position k or above.
pub fn is_fresh(s: &[u32], n: usize, k: usize, t: u32) -> bool
    requires { (n ≤ length s.now) × (n ≤ list_inputs) × (k ≤ n) }
    ensures { result ≡ leb (2 ^ k) (apply (at s.now) n t) }
{
    s[k..n].iter().any(|row| bit_work::parity_of(*row & t) == 1)
}

// Whether t, of the walk, takes the place of b, the best so far or 0 for none. The order is asked first, since most numbers fail it.
pub fn is_better(s: &[u32], n: usize, k: usize, t: u32, value: u32, b: u32, top: u32) -> bool
    requires { (n ≤ length s.now) × (n ≤ list_inputs) × (k ≤ n) }
    ensures { (r : ℕ → ℕ) → r t ≡ value → ((b ≡ 0 → ⊥) → r b ≡ top) → result ≡ (leb (2 ^ k) (apply (at s.now) n t) && (eqb b 0 || before r t b)) }
{
    (b == 0 || is_before(value, t, top, b)) && is_fresh(s, n, k, t)
}
