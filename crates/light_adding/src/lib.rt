// What one cube (mask, value, weight) adds to an array over all t: its weight at each light number t, one with at most w one-bits, that lies
// in it. Those numbers are the cube's value with few of the free inputs flipped, so that the others are not looked at.
// Every function here is inner.
#![tactic(auto)]

ghost use Rattle.std.specs.Prelude.{◌≡◌, ◌^◌, ◌≤◌, ◌<◌, length};
ghost use Rattle.std.specs.Int.Bits.{bit_and};
ghost use Rattle.slices.specs.Places.{over};
ghost use Rattle.block.specs.Limits.{list_inputs};
ghost use Rattle.light_laws.specs.Ways.{ways, frees};
ghost use Rattle.light_adding.specs.Raised.{Raised, Below, Inside, here, most_weight};
ghost use Rattle.light_adding.specs.Cubes.{with_cube};

use block::LIST_INPUTS;

// Adds the weight at b.
fn add_here(acc: &mut [u32], b: u32, weight: u32)
    requires { (b < length acc.old) × (weight ≤ most_weight) × Below (2 ^ 31) acc.old }
    ensures { Raised weight (here b) acc.old acc.new }
{
    acc[b as usize] += weight;
}

// The same at b, and at b with one of the first `top` numbers of ps flipped.
fn add_ones(acc: &mut [u32], ps: &[u32], top: usize, b: u32, weight: u32)
    requires b_in_bounds { (b < length acc.old) × (weight ≤ most_weight) × (top ≤ list_inputs) × (top ≤ length ps.now) }
    requires inside { Inside (length acc.old) ps.now top × Below (2 ^ 30) acc.old }
    ensures { Raised weight (ways 1 ps.now top b) acc.old acc.new }
{
    add_here(acc, b, weight);
    for k in 0..top {
        acc[(b ^ ps[k]) as usize] += weight;
    }
}

// The same with at most two of them flipped, each pair once: the second is one that stands before the first.
fn add_twos(acc: &mut [u32], ps: &[u32], top: usize, b: u32, weight: u32)
    requires b_in_bounds { (b < length acc.old) × (weight ≤ most_weight) × (top ≤ list_inputs) × (top ≤ length ps.now) }
    requires inside { Inside (length acc.old) ps.now top × Below (2 ^ 29) acc.old }
    ensures { Raised weight (ways 2 ps.now top b) acc.old acc.new }
{
    add_here(acc, b, weight);
    for k in 0..top {
        add_ones(acc, ps, k, b ^ ps[k], weight);
    }
}

// The same with at most three of them flipped.
fn add_threes(acc: &mut [u32], ps: &[u32], top: usize, b: u32, weight: u32)
    requires b_in_bounds { (b < length acc.old) × (weight ≤ most_weight) × (top ≤ list_inputs) × (top ≤ length ps.now) }
    requires inside { Inside (length acc.old) ps.now top × Below (2 ^ 28) acc.old }
    ensures { Raised weight (ways 3 ps.now top b) acc.old acc.new }
{
    add_here(acc, b, weight);
    for k in 0..top {
        add_twos(acc, ps, k, b ^ ps[k], weight);
    }
}

// The same with at most d of them flipped.
fn add_few(d: usize, acc: &mut [u32], ps: &[u32], top: usize, b: u32, weight: u32)
    requires b_in_bounds { (b < length acc.old) × (weight ≤ most_weight) × (top ≤ list_inputs) × (top ≤ length ps.now) × (d ≤ 3) }
    requires inside { Inside (length acc.old) ps.now top × Below (2 ^ 28) acc.old }
    ensures { Raised weight (ways d ps.now top b) acc.old acc.new }
{
    if d == 0 {
        add_here(acc, b, weight);
        return;
    }
    if d == 1 {
        add_ones(acc, ps, top, b, weight);
        return;
    }
    if d == 2 {
        add_twos(acc, ps, top, b, weight);
        return;
    }
    add_threes(acc, ps, top, b, weight);
}

// 2^i for each input i below n that the mask leaves free, at the front of out; answers how many they are.
fn put_free(n: usize, mask: u32, out: &mut [u32]) -> usize
    requires { (n ≤ list_inputs) × (n ≤ length out.old) }
    ensures { (result ≡ length (frees mask n)) × (out.new ≡ over (frees mask n) out.old) }
{
    let mut count: usize = 0;
    for i in 0..n {
        if bit_work::bit_of(mask, i) == 0 {
            out[count] = bit_work::power(i);
            count += 1;
        }
    }
    count
}

// What a cube adds at the numbers with at most w one-bits.
pub fn add_light(n: usize, w: usize, mask: u32, value: u32, weight: u32, acc: &mut [u32])
    requires n_le_list_inputs { (n ≤ list_inputs) × (w ≤ 3) × (mask < 2 ^ n) × (bit_and value mask ≡ value) × (weight ≤ most_weight) }
    requires acc_len { (length acc.old ≡ 2 ^ n) × Below (2 ^ 28) acc.old }
    ensures { acc.new ≡ with_cube n w mask value weight acc.old }
{
    let ones = u32::count_ones(value) as usize;
    if w < ones {
        return;
    }
    let mut free = [0u32; LIST_INPUTS];
    let top = put_free(n, mask, &mut free);
    add_few(w - ones, acc, &free, top, value, weight);
}
