// What a pair of rows adds to R, where a missing point has the word `missing`: how often its points count, what the pair weighs, and
// where t lies in its cube (document 003, Theorem 1); what a cube adds that is laid out by its parts; how many points lie under a row; and
// what the points add and a row takes where missing points count (02, Ticket 2: type fd). Every function here is inner: the loops over
// rows and pairs stand in missing_points, row_shifts and light_shifts.
#![tactic(auto)]

ghost use Rattle.std.specs.Prelude.{◌≡◌, not, cond, ◌-◌, ◌*◌, ◌≤◌, ◌<◌, ◌^◌, eqb, length};
ghost use Rattle.std.specs.Int.Bits.{bit_or};
ghost use Rattle.std.specs.Int.Count.{ones};
ghost use Rattle.slices.specs.Places.{at};
ghost use Rattle.sums.specs.Sums.{one};
ghost use Rattle.block.specs.Limits.{list_inputs};
ghost use Rattle.pair_laws.specs.Theorem.{counts, often};
ghost use Rattle.pair_laws.specs.Symmetric.{cube, hit};
ghost use Rattle.pair_weights.specs.Places.{cube_of};

// Whether two words are equal, in all their columns; word 0 is a word like any other.
fn same_word(a: u32, b: u32) -> bool
    ensures { result ≡ eqb a b }
{
    a == b
}

// 1 where missing points count, because their word is an output, and else 0.
pub fn missing_counts(missing: u32) -> u32
    ensures { result ≡ counts missing }
{
    if missing == 65535 { 0 } else { 1 }
}

// How often the points of a pair of rows with the words a and b count: not at all where one of the words is that of a missing point; else
// once for equal words, and `more` times for any two.
pub fn times_of(a: u32, b: u32, missing: u32, more: u32) -> u32
    requires { more ≤ 1 }
    ensures value { result ≡ often missing more a b }
    ensures upper_bound { result ≤ 2 }
{
    if (a == missing) | (b == missing) {
        return 0;
    }
    if same_word(a, b) { more + 1 } else { more }
}

// What a pair of rows weighs, by the masks of their fixed inputs: 2 to the number of inputs that neither fixes, once for a row with
// itself, and twice for two rows, whose pair counts in both orders; and all that as often as its points count.
pub fn weight_of(n: usize, mask: u32, mask2: u32, single: bool, times: u32) -> u32
    requires { (n ≤ list_inputs) × (mask < 2 ^ n) × (mask2 < 2 ^ n) × (times ≤ 2) }
    ensures { result ≡ 2 ^ (n - ones (bit_or mask mask2)) * cond single 1 2 * times }
{
    let once = bit_work::power(n - u32::count_ones(mask | mask2) as usize) * times;
    if single {
        return once;
    }
    once * 2
}

// What a cube adds to R(t), by its parts: its weight where t lies in it, and else nothing. A loop over cubes that asks here, with all three
// parts at hand, is compiled to one over several at once.
pub fn cube_adds(mask: u32, value: u32, weight: u32, t: u32) -> u32
    ensures { result ≡ hit t (cube mask value weight) }
{
    if t & mask == value { weight } else { 0 }
}

// What the rows i and j, whose points count so many times, add to R(t): what their pair weighs where t lies in its cube, and else nothing.
pub fn pair_adds(
    n: usize,
    masks: &[u32],
    values: &[u32],
    i: usize,
    j: usize,
    times: u32,
    t: u32,
) -> u32
    requires n_le_list_inputs { (n ≤ list_inputs) × (i < length masks.now) × (j < length masks.now) × (length values.now ≡ length masks.now) }
    requires i_bound { (at masks.now i < 2 ^ n) × (at masks.now j < 2 ^ n) × (times ≤ 2) }
    ensures { result ≡ hit t (cube_of n times masks.now values.now i j) }
{
    let mask = masks[i];
    let mask2 = masks[j];
    let both = mask & mask2;
    if t & both == both & (values[i] ^ values[j]) {
        return weight_of(n, mask, mask2, i == j, times);
    }
    0
}

// How many points lie under a row.
pub fn row_points(n: usize, mask: u32) -> u32
    requires { (n ≤ list_inputs) × (mask < 2 ^ n) }
    ensures { result ≡ 2 ^ (n - ones mask) }
{
    bit_work::power(n - u32::count_ones(mask) as usize)
}

// What the points add to R: all of them where missing points count.
pub fn points_of(n: usize, missing: u32) -> u32
    requires { n ≤ list_inputs }
    ensures { result ≡ 2 ^ n * counts missing }
{
    bit_work::power(n) * missing_counts(missing)
}

// What a row takes from R: its points twice, as x and as x XOR t, where missing points count and the row has another word.
pub fn takes_of(n: usize, mask: u32, word: u32, missing: u32) -> u32
    requires { (n ≤ list_inputs) × (mask < 2 ^ n) }
    ensures { result ≡ 2 ^ (n - ones mask) * (one (not (eqb word missing)) * (2 * counts missing)) }
{
    if word == missing {
        return 0;
    }
    weight_of(n, mask, mask, true, 2 * missing_counts(missing))
}
