// The signed Walsh transform in place (02, Ticket 5): stages of butterflies over a lent slice of signed numbers, two at a time; and their
// squares. Every function here is inner.
#![tactic(auto)]

ghost use Rattle.std.specs.Prelude.{◌≡◌, ℕ, ◌+◌, ◌*◌, ◌≤◌, ◌<◌, ◌^◌, length, pos, nat_abs};
ghost use Rattle.slices.specs.Places.{tab};
ghost use Rattle.walsh_laws.specs.Walsh.{walsh, most_points};
ghost use Rattle.walsh_laws.specs.Passes.{val, Small, Crossed, CrossedTwice, PassedTwice};
ghost use Rattle.walsh.specs.Numbers.{Ready};

// The butterflies of the block of 2 h numbers from `at` on.
fn cross_block(s: &mut [i32], at: usize, h: usize)
    requires { (at + h + h ≤ length s.old) × Small s.old at }
    ensures { Crossed s.old s.new at h h }
{
    for j in 0..h {
        let a = s[at + j];
        let b = s[at + h + j];
        s[at + j] = a + b;
        s[at + h + j] = a - b;
    }
}

// The butterflies of two stages, in the block of 4 h numbers from `at` on: those of its halves and then its own.
fn cross_quad(s: &mut [i32], at: usize, h: usize)
    requires { (at + 4 * h ≤ length s.old) × Small s.old at }
    ensures { CrossedTwice s.old s.new at h h }
{
    for j in 0..h {
        let first = at + j;
        let second = first + h;
        let third = second + h;
        let fourth = third + h;
        let a = s[first];
        let b = s[second];
        let c = s[third];
        let d = s[fourth];
        let left_sum = a + b;
        let left_difference = a - b;
        let right_sum = c + d;
        let right_difference = c - d;
        s[first] = left_sum + right_sum;
        s[second] = left_difference + right_difference;
        s[third] = left_sum - right_sum;
        s[fourth] = left_difference - right_difference;
    }
}

// The butterflies of two stages in all m blocks of 4 h numbers.
fn cross_quads(s: &mut [i32], h: usize, m: usize)
    requires { (m * (4 * h) ≡ length s.old) × Small s.old 0 }
    ensures { PassedTwice s.old s.new h m }
{
    for b in 0..m {
        cross_quad(s, b * (4 * h), h);
    }
}

// Two stages, so that each number is loaded and stored once for both. The widths that occur with many blocks are given as numbers: only
// then does the compiler see that the four quarters lie apart, and takes four numbers at once.
fn two_stages(s: &mut [i32], h: usize, m: usize)
    requires { (m * (4 * h) ≡ length s.old) × Small s.old 0 }
    ensures { PassedTwice s.old s.new h m }
{
    match h {
        1 => cross_quads(s, 1, m),
        4 => cross_quads(s, 4, m),
        16 => cross_quads(s, 16, m),
        64 => cross_quads(s, 64, m),
        256 => cross_quads(s, 256, m),
        _ => cross_quads(s, h, m),
    }
}

// The transform of numbers that are not negative and add up to at most 2^24: its stages two at a time, and the last by itself where n is odd.
pub fn transform(s: &mut [i32], n: usize)
    requires { Ready s.old n }
    ensures { s.new ≡ tab (2 ^ n) (walsh (val s.old) n) }
{
    let size = s.len();
    let mut h: usize = 1;
    for _ in 0..n / 2 {
        two_stages(s, h, size / (4 * h));
        h *= 4;
    }
    if n % 2 == 1 {
        cross_block(s, 0, h);
    }
}

// Each number squared.
pub fn square(s: &mut [i32])
    requires { (x : ℕ) → x < length s.old → nat_abs (val s.old x) ≤ most_points }
    ensures { s.new ≡ tab (length s.old) (λ x. pos (nat_abs (val s.old x) * nat_abs (val s.old x))) }
{
    for a in s.iter_mut() {
        *a = *a * *a;
    }
}
