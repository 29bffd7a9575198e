// Matrices over GF(2) in slices, n numbers of n bits: a matrix at a point and at every point, and the two row operations that a step is
// made of. Every function here is inner.
#![tactic(auto)]

ghost use Rattle.std.specs.Prelude.{◌≡◌, ◌+◌, ◌≤◌, ◌<◌, ◌^◌, length};
ghost use Rattle.slices.specs.Places.{at, tab, over};
ghost use Rattle.block.specs.Limits.{list_inputs};
ghost use Rattle.block.specs.Basis.{apply};
ghost use Rattle.matrix_laws.specs.Reach.{exchange_rows, shear_rows};
ghost use Rattle.matrix_laws.specs.Images.{Images};

// The matrix with rows s at x: bit j is the parity of (row j AND x).
pub fn apply_rows(s: &[u32], n: usize, x: u32) -> u32
    requires { (n ≤ length s.now) × (n ≤ list_inputs) }
    ensures { result ≡ apply (at s.now) n x }
{
    let mut r: u32 = 0;
    for j in 0..n {
        r += bit_work::parity_of(s[j] & x) * bit_work::power(j);
    }
    r
}

// Doubles the values of the matrix with columns c that are there: those at each z below 2^i become those below 2^(i + 1).
fn double_images(c: &[u32], n: usize, i: usize, images: &mut [u32])
    requires i_lt_n { (i < n) × (n ≤ list_inputs) × (n ≤ length c.now) × (2 ^ n ≤ length images.old) }
    requires images { Images (at c.now) n (2 ^ i) images.old }
    ensures { Images (at c.now) n (2 ^ (i + 1)) images.new }
{
    let column = c[i];
    let size = bit_work::size(i);
    for z in 0..size {
        images[size + z] = images[z] ^ column;
    }
}

// The matrix with columns c at every z below 2^n: the XOR of the columns at the one-bits of z. Each value is one XOR from another.
pub fn put_images(c: &[u32], n: usize, images: &mut [u32])
    requires { (n ≤ list_inputs) × (n ≤ length c.now) × (2 ^ n ≤ length images.old) }
    ensures { Images (at c.now) n (2 ^ n) images.new }
{
    images[0] = 0;
    for i in 0..n {
        double_images(c, n, i, images);
    }
}

// The columns of the matrix with rows s: its values at 1, 2, 4, ..
pub fn put_columns(s: &[u32], n: usize, c: &mut [u32])
    requires { (n ≤ length s.now) × (n ≤ list_inputs) × (n ≤ length c.old) }
    ensures { c.new ≡ over (tab n (λ j. apply (at s.now) n (2 ^ j))) c.old }
{
    for j in 0..n {
        c[j] = apply_rows(s, n, bit_work::power(j));
    }
}

// The unit numbers 1, 2, 4, .., which are the rows of the matrix that changes nothing.
pub fn put_units(s: &mut [u32], n: usize)
    requires { (n ≤ length s.old) × (n ≤ list_inputs) }
    ensures { s.new ≡ over (tab n (λ j. 2 ^ j)) s.old }
{
    for j in 0..n {
        s[j] = bit_work::power(j);
    }
}

// Rows k and h exchanged.
pub fn exchange_rows(s: &mut [u32], n: usize, k: usize, h: usize)
    requires { (n ≤ length s.old) × (k < n) × (h < n) }
    ensures { s.new ≡ over (tab n (exchange_rows k h (at s.old))) s.old }
{
    s.swap(k, h);
}

// Row k added to the rows where v has a one.
pub fn shear_rows(s: &mut [u32], n: usize, k: usize, v: u32)
    requires { (n ≤ length s.old) × (k < n) × (n ≤ list_inputs) }
    ensures { s.new ≡ over (tab n (shear_rows k v (at s.old))) s.old }
{
    let r = s[k];
    for j in 0..n {
        s[j] = bit_work::xor_where(s[j], r, bit_work::bit_of(v, j));
    }
}
