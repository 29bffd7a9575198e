// The work on one output word before and after its transforms (02, Ticket 5): which word comes next, its points, and the exact division
// by 2^n. Every function here is inner: the transforms stand in walsh, the sum over the words in spectrum_work.
#![tactic(auto)]

ghost use Rattle.std.specs.Prelude.{◌≡◌, ℕ, ◌+◌, ◌*◌, ◌/◌, ◌%◌, ◌^◌, ◌<◌, ◌≤◌, length, pos, ◌==◌, unsigned_abs};
ghost use Rattle.slices.specs.Places.{at, tab};
ghost use Rattle.sums.specs.Sums.{one};
ghost use Rattle.block.specs.Limits.{table_inputs};
ghost use Rattle.walsh_laws.specs.Walsh.{most_points};
ghost use Rattle.walsh_laws.specs.Passes.{val};
ghost use Rattle.spectrum_words.specs.Words.{marks, Exact, Nearer, Next};

// At most `far`, and from u no further than to w, where w is not below u. It is the smaller of `far` and the way from u up to w, which to a
// w below u leads round past 65,535, so that the compiler takes many entries at once; how far it leads is for speed alone.
fn nearer(w: u16, u: u16, far: u16) -> u16
    ensures { Nearer w u far result }
{
    w.wrapping_sub(u).min(far)
}

// Where a way from u leads, where that is at most 65,535, and else some number from u on.
fn reached(u: u16, far: u16) -> u16
    ensures { (u ≤ result) × (result ≤ 65535) × (u + far ≤ 65535 → result ≡ u + far) }
{
    u.saturating_add(far)
}

// A number from u on, at most 65,535, that no entry from u on lies before. It is the least such entry, so that no word is worked on which the
// table does not have; that is for speed alone, since such a word would add nothing.
pub fn next_word(table: &[u16], u: u16) -> u16
    ensures { Next table.now u result }
{
    let mut far: u16 = 65535;
    for w in table {
        far = nearer(*w, u, far);
    }
    reached(u, far)
}

// 1 where the two words are equal, and else 0.
fn mark(w: u16, u: u16) -> i32
    ensures { result ≡ pos (one (w == u)) }
{
    i32::from(w == u)
}

// A 1 at each point with the word u, and else 0.
pub fn put_marks(table: &[u16], u: u16, s: &mut [i32])
    requires { length table.now ≡ length s.old }
    ensures { s.new ≡ tab (length s.old) (λ x. pos (marks (at table.now) u x)) }
{
    for (x, w) in table.iter().enumerate() {
        s[x] = mark(*w, u);
    }
}

// A number that is not negative divided by one that divides it.
fn exact_quotient(a: i32, d: i32) -> u32
    requires { (a ≡ pos (unsigned_abs a)) × (d ≡ pos (unsigned_abs d)) × (0 < unsigned_abs d) × (unsigned_abs a % unsigned_abs d ≡ 0) }
    ensures { result * unsigned_abs d ≡ unsigned_abs a }
{
    (a / d) as u32
}

// Each number divided by d, which is how many there are and divides each, and added to the result; the numbers end at 0.
fn divide_by(s: &mut [i32], d: i32, out: &mut [u32])
    requires { (d ≡ pos (length s.old)) × (length out.old ≡ length s.old) × (length s.old ≤ most_points) × Exact s.old (length s.old)
        × ((t : ℕ) → t < length s.old → at out.old t ≤ most_points) }
    ensures { (s.new ≡ tab (length s.old) (λ _. pos 0))
        × (out.new ≡ tab (length s.old) (λ t. at out.old t + unsigned_abs (val s.old t) / length s.old)) }
{
    for t in 0..s.len() {
        out[t] += exact_quotient(s[t], d);
        s[t] = 0;
    }
}

// Each number divided by 2^n, which divides it, and added to the result; the numbers end at 0. Of many numbers 2^n is given as a number, so
// that the compiler divides by shifting.
pub fn add_quotients(s: &mut [i32], n: usize, out: &mut [u32])
    requires { (length s.old ≡ 2 ^ n) × (length out.old ≡ 2 ^ n) × (n ≤ table_inputs) × Exact s.old (2 ^ n) × ((t : ℕ) → t < 2 ^ n → at out.old t ≤ most_points) }
    ensures { (s.new ≡ tab (2 ^ n) (λ _. pos 0)) × (out.new ≡ tab (2 ^ n) (λ t. at out.old t + unsigned_abs (val s.old t) / 2 ^ n)) }
{
    let size = s.len() as i32;
    match n {
        12 => divide_by(s, 4096, out),
        11 => divide_by(s, 2048, out),
        10 => divide_by(s, 1024, out),
        9 => divide_by(s, 512, out),
        8 => divide_by(s, 256, out),
        _ => divide_by(s, size, out),
    }
}
