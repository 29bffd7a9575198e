// The work of joining (02, Ticket 9), on rows in three flat slices that have passed their checks: the next pair is joined in place while there
// is one, and freed entries become 0. One row is looked at: every pair whose first row was seen has that row in it, so that one look through
// the list finds the next pair, and after a join the joined row is looked at, which may join an earlier one. Every function here is inner.
#![tactic(auto)]

ghost use Rattle.std.specs.Prelude.{◌≡◌, ◌&&◌, ◌≤◌, ◌<◌, eqb, length};
ghost use Rattle.std.specs.Int.Bits.{bit_xor};
ghost use Rattle.std.specs.Int.Count.{ones};
ghost use Rattle.block.specs.Words.{row};
ghost use Rattle.block.specs.Joins.{joins};
ghost use Rattle.flat_rows.specs.Listing.{rows_from};
ghost use Rattle.join_laws.specs.Next.{nearest, Ordered, StillSeen};
ghost use Rattle.join_work.specs.Closing.{Closed};
ghost use Rattle.join_work.specs.All.{OneJoin, AllJoined};

// Two rows, by their places.
#[derive(Clone, Copy)]
pub struct Pair {
    pub first: usize,
    pub second: usize,
}

// Whether two rows have the same fixed inputs, and values that differ in exactly one.
pub fn is_one_apart(mask: u32, values: u32, mask2: u32, values2: u32) -> bool
    ensures { result ≡ (eqb mask mask2 && eqb (ones (bit_xor values values2)) 1) }
{
    mask == mask2 && u32::count_ones(values ^ values2) == 1
}

// Whether two rows are written as one: equal words, the same fixed inputs, and values that differ in exactly one.
#[tactic(auto, unfolding(block::specs::Joins::joins))]
pub fn is_joined(mask: u32, values: u32, word: u32, mask2: u32, values2: u32, word2: u32) -> bool
    ensures { result ≡ joins (row mask values word) (row mask2 values2 word2) }
{
    word == word2 && is_one_apart(mask, values, mask2, values2)
}

// The least of the first p rows that is written as one with row c, or p where there is none. Most rows are not one apart,
// and of those the word is not read.
pub fn find_nearest(c: usize, p: usize, masks: &[u32], values: &[u32], words: &[u32]) -> usize
    requires { (c < p) × (p ≤ length masks.now) × (p ≤ length values.now) × (p ≤ length words.now) }
    ensures { result ≡ nearest (rows_from p masks.now values.now words.now) c }
{
    let mask = masks[c];
    let value = values[c];
    let word = words[c];
    for q in 0..p {
        if is_one_apart(masks[q], values[q], mask, value)
            && is_joined(masks[q], values[q], words[q], mask, value, word)
        {
            return q;
        }
    }
    p
}

// Row c and row q in their order.
pub fn in_order(c: usize, q: usize) -> Pair
    ensures { Ordered c q result.first result.second }
{
    if q < c {
        return Pair {
            first: q,
            second: c,
        };
    }
    Pair {
        first: c,
        second: q,
    }
}

// The entries behind j, of p, move one place down, and the last becomes 0.
pub fn close_up(numbers: &mut [u32], p: usize, j: usize)
    requires { (j < p) × (p ≤ length numbers.old) }
    ensures { Closed p j numbers.old numbers.new }
{
    numbers.copy_within(j + 1..p, j);
    numbers[p - 1] = 0;
}

// Joins rows i and j, of p, in the place of i: those behind j close up, and the last record becomes all zeros.
pub fn join_pair(
    i: usize,
    j: usize,
    p: usize,
    masks: &mut [u32],
    values: &mut [u32],
    words: &mut [u32],
)
    requires { (i < j) × (j < p) × (p ≤ length masks.old) × (p ≤ length values.old) × (p ≤ length words.old) }
    ensures { OneJoin p i j masks.old values.old words.old masks.new values.new words.new }
{
    let a = values[i];
    let b = values[j];
    masks[i] = masks[i] ^ (a ^ b);
    values[i] = a & b;
    close_up(masks, p, j);
    close_up(values, p, j);
    close_up(words, p, j);
}

// How many of the rows were seen after a join whose second row was j: one fewer where that was among them.
pub fn still_seen(seen: usize, j: usize) -> usize
    requires { 1 ≤ seen }
    ensures { StillSeen seen j result }
{
    if j < seen { seen - 1 } else { seen }
}

// Joins while some pair is left, and answers how many rows there are then; each freed record is all zeros.
pub fn join_all(masks: &mut [u32], values: &mut [u32], words: &mut [u32]) -> usize
    requires { (1 ≤ length masks.old) × (length values.old ≡ length masks.old) × (length words.old ≡ length masks.old) }
    ensures { AllJoined result masks.old values.old words.old masks.new values.new words.new }
{
    let mut count = masks.len();
    let mut c = 0;
    let mut seen = 1;
    // A loop: each turn joins a pair or sees one row more, and only the search within a turn tells that no pair is left.
    loop {
        let q = find_nearest(c, count, masks, values, words);
        if q < count {
            let pair = in_order(c, q);
            join_pair(pair.first, pair.second, count, masks, values, words);
            count -= 1;
            c = pair.first;
            seen = still_seen(seen, pair.second);
        } else {
            if seen == count {
                return count;
            }
            c = seen;
            seen += 1;
        }
    }
}
