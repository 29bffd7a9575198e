// The walk, which lists the numbers that can be candidates, and the values of its numbers, which lie by its places. With a weight limit up to
// that of the printed list the walk is taken from this list (02, Ticket 3), and else it is made. Every function here is inner.
#![tactic(auto)]

ghost use Rattle.std.specs.Prelude.{◌≡◌, ◌≤◌, ◌<◌, length};
ghost use Rattle.slices.specs.Places.{at, over};
ghost use Rattle.sums.specs.Sums.{sum};
ghost use Rattle.block.specs.Limits.{list_inputs};
ghost use Rattle.walks.specs.Walk.{walk, value_at};
ghost use Rattle.walks.specs.Ascending.{Ascending};
ghost use Rattle.walks.specs.Next.{NextPlace};
ghost use Rattle.walks.specs.Printed.{kept, cut};

use candidate_list::PRINTED_LIMIT;

// Puts the numbers of a list that have 1 to w one-bits, up to the first number that is not below 2^n, and answers how many there are.
fn put_listed(list: &[u32], n: usize, w: usize, out: &mut [u32]) -> usize
    requires { (length (kept w list.now (cut n list.now)) ≤ length out.old) × (n ≤ list_inputs) × (w ≤ list_inputs) }
    ensures out_after { out.new ≡ over (kept w list.now (cut n list.now)) out.old }
    ensures value { result ≡ length (kept w list.now (cut n list.now)) }
{
    let size = bit_work::power(n);
    let mut count: usize = 0;
    for t in list {
        if size <= *t {
            return count;
        }
        if candidates::is_light(w, *t) {
            out[count] = *t;
            count += 1;
        }
    }
    count
}

// Puts the walk by looking at every number below 2^n, or at the first of sixteen that are passed over, and answers how many there are.
fn make_walk(n: usize, w: usize, out: &mut [u32]) -> usize
    requires { (length (walk n w) ≤ length out.old) × (n ≤ list_inputs) × (w ≤ n) }
    ensures out_after { out.new ≡ over (walk n w) out.old }
    ensures value { result ≡ length (walk n w) }
{
    let size = bit_work::size(n);
    let mut count: usize = 0;
    let mut t: usize = 0;
    // A while: where a number is not in the walk, the step is its stride.
    while t < size {
        if candidates::is_light(w, t as u32) {
            out[count] = t as u32;
            count += 1;
            t += 1;
        } else {
            t += candidates::stride(w, t as u32);
        }
    }
    count
}

// Puts the walk, the numbers below 2^n with 1 to w one-bits in ascending order, and answers how many there are.
pub fn put_walk(n: usize, w: usize, out: &mut [u32]) -> usize
    requires { (length (walk n w) ≤ length out.old) × (n ≤ list_inputs) × (w ≤ n) }
    ensures out_after { out.new ≡ over (walk n w) out.old }
    ensures value { result ≡ length (walk n w) }
{
    if w <= PRINTED_LIMIT {
        let list = candidate_list::printed_list();
        return put_listed(&list, n, w, out);
    }
    make_walk(n, w, out)
}

// A place from `from` on, or the end, before which every value is below `top`: the numbers there can't stand before one of that value. Which
// such place it is, is for speed alone.
pub fn next_place(values: &[u32], from: usize, count: usize, top: u32) -> usize
    requires { (from ≤ count) × (count ≤ length values.now) }
    ensures { NextPlace values.now from count top result }
{
    for place in from..count {
        if top <= values[place] {
            return place;
        }
    }
    count
}

// The value of a number of the walk, by its place there, which is searched by halves since the walk ascends.
pub fn value_of(walk: &[u32], values: &[u32], count: usize, t: u32) -> u32
    requires { (count ≤ length walk.now) × (count < length values.now) × Ascending walk.now count }
    ensures { result ≡ value_at walk.now values.now count t }
{
    match walk[..count].binary_search(&t) {
        Ok(place) => values[place],
        Err(_) => values[count],
    }
}

// The sum of the values of n numbers of the walk.
pub fn sum_of(walk: &[u32], values: &[u32], count: usize, terms: &[u32], n: usize) -> u64
    requires { (count ≤ length walk.now) × (count < length values.now) × (n ≤ length terms.now) × (n ≤ list_inputs) × Ascending walk.now count }
    ensures { result ≡ sum (λ i. value_at walk.now values.now count (at terms.now i)) n }
{
    let mut r: u64 = 0;
    for term in &terms[..n] {
        r += u64::from(value_of(walk, values, count, *term));
    }
    r
}
