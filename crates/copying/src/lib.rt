// Copying numbers from one slice to another: the first of them, and those at the places that a third slice names. Every function here
// is inner.
#![tactic(auto)]

ghost use Rattle.std.specs.Prelude.{◌≡◌, ℕ, ◌≤◌, ◌<◌, length};
ghost use Rattle.slices.specs.Places.{at, tab, over};

// The first p numbers of one slice, put into another.
pub fn copy_first(from: &[u32], p: usize, to: &mut [u32])
    requires { (p ≤ length from.now) × (p ≤ length to.old) }
    ensures { to.new ≡ over (tab p (at from.now)) to.old }
{
    to[..p].copy_from_slice(&from[..p]);
}

// The values at the numbers of a list, by their places there.
pub fn put_values(by_t: &[u32], walk: &[u32], count: usize, out: &mut [u32])
    requires { (count ≤ length walk.now) × (count ≤ length out.old) × ((i : ℕ) → i < count → at walk.now i < length by_t.now) }
    ensures { out.new ≡ over (tab count (λ i. at by_t.now (at walk.now i))) out.old }
{
    for i in 0..count {
        out[i] = by_t[walk[i] as usize];
    }
}
