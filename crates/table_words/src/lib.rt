// What R of a table is counted from, by blocks of 64 points: an entry as the moved copy holds it, how many points of two blocks match, what
// two blocks add together, and whether a number has few one-bits. Every function here is inner: the loops over blocks and numbers stand
// in table_shifts.
#![tactic(auto)]

ghost use Rattle.std.specs.Prelude.{◌≡◌, ◌+◌, ◌*◌, ◌-◌, ◌≤◌, ◌<◌, ◌^◌, leb, length};
ghost use Rattle.std.specs.Int.Count.{ones};
ghost use Rattle.block.specs.Limits.{table_inputs};
ghost use Rattle.table_words.specs.Matching.{marked, matching, pair_adds};

// An entry as the copy holds it: 65,534, which no entry is, for no output.
pub fn mark(w: u16) -> u16
    ensures { result ≡ marked w }
{
    if w == 65535 { 65534 } else { w }
}

// How many of the 64 points of block b hold in the table what the same points of block c hold in the copy. The bound is a number so that
// the compiler compares many points at once.
pub fn matches(table: &[u16], copy: &[u16], b: usize, c: usize) -> u16
    requires { (b * 64 + 64 ≤ length table.now) × (c * 64 + 64 ≤ length copy.now) }
    ensures { result ≡ matching table.now copy.now b c }
{
    let x = b * 64;
    let y = c * 64;
    let mut m: u16 = 0;
    for i in 0..64 {
        if table[x + i] == copy[y + i] {
            m += 1;
        }
    }
    m
}

// What the blocks b and b XOR high add to R together, counted at the smaller of the two.
pub fn blocks_add(table: &[u16], copy: &[u16], n: usize, high: usize, b: usize) -> u32
    requires { (length table.now ≡ 2 ^ n) × (6 ≤ n) × (2 ^ n ≤ length copy.now) × (high < 2 ^ (n - 6)) × (b < 2 ^ (n - 6)) }
    ensures { result ≡ pair_adds table.now copy.now high b }
{
    let c = b ^ high;
    if c < b {
        return 0;
    }
    let m = matches(table, copy, b, c) as u32;
    if b == c { m } else { m * 2 }
}

// Whether t has at most w one-bits.
pub fn has_few(t: usize, w: usize) -> bool
    requires { t < 2 ^ table_inputs }
    ensures { result ≡ leb (ones t) w }
{
    u32::count_ones(t as u32) as usize <= w
}
