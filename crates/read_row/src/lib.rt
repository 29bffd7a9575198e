// A row of row text, read by place: what its symbols spell, and its parts joined. All functions here are inner: the operation is
// `read_text` of the crate reading.
#![tactic(auto)]

ghost use Rattle.std.specs.Prelude.{◌≡◌, ◌+◌, ◌≤◌, ◌<◌};
ghost use Rattle.block.specs.Limits.{list_inputs, outputs};
ghost use Rattle.read_laws.specs.ByPlace.{farthest, spelled_at, joined_of, row_from};
ghost use Rattle.read_row.specs.Told.{fixed_of, one_of, strange_of, told_of};

use block::Row;

// 1 where a symbol is 0 or 1, and so fixes its input, and else 0. This and the next two are functions of their own so that the loop over
// symbols has no branch on a symbol: a processor can't foresee those.
pub fn fixed(b: usize) -> u32
    ensures { result ≡ fixed_of b }
{
    match b {
        48 | 49 => 1,
        _ => 0,
    }
}

// 1 where a symbol is 1, and else 0.
pub fn one(b: usize) -> u32
    ensures { result ≡ one_of b }
{
    u32::from(b == 49)
}

// 1 where a byte is no symbol, and else 0; `free` is the byte of a free one.
pub fn strange(b: usize, free: usize) -> u32
    ensures { result ≡ strange_of b free }
{
    match b {
        48 | 49 => 0,
        _ => u32::from(b != free),
    }
}

// What is spelled, a mask and the values under it, highest input first, where so many bytes were no symbols.
pub fn told(bad: u32, m: u32, v: u32) -> Option<(u32, u32)>
    ensures { result ≡ told_of bad m v }
{
    if bad == 0 {
        return Some((m, v));
    }
    None
}

// The symbols from a place on: at most as many as a number of 32 bits holds.
pub fn spelling(s: &[u8], from: usize, count: usize, free: usize) -> Option<(u32, u32)>
    requires { (from < farthest) × (count ≤ 32) }
    ensures { result ≡ spelled_at s.now from free count }
{
    let mut m: u32 = 0;
    let mut v: u32 = 0;
    let mut bad: u32 = 0;
    for i in 0..count {
        let b = read_bytes::byte(s, from + i);
        m = m * 2 + fixed(b);
        v = v * 2 + one(b);
        bad += strange(b, free);
    }
    told(bad, m, v)
}

// A row's parts: its inputs, the byte after them, its outputs, the byte after them.
#[tactic(auto, unfolding(read_laws::specs::ByPlace::joined_of))]
pub fn joined(
    inputs: Option<(u32, u32)>,
    gap: usize,
    outputs: Option<(u32, u32)>,
    end: usize,
) -> Option<Row>
    ensures { result ≡ joined_of inputs gap outputs end }
{
    if gap != 32 {
        return None;
    }
    if end != 10 {
        return None;
    }
    let (mask, values) = inputs?;
    let (_, word) = outputs?;
    Some(Row { mask, values, word })
}

// The row from a place on.
#[tactic(auto, unfolding(read_laws::specs::ByPlace::row_from))]
pub fn read_row(s: &[u8], from: usize, n: usize, k: usize) -> Option<Row>
    requires { (from + n + 1 < farthest) × (n ≤ list_inputs) × (k ≤ outputs) }
    ensures { result ≡ row_from s.now n k from }
{
    let inputs = spelling(s, from, n, 45);
    let gap = read_bytes::byte(s, from + n);
    let outputs = spelling(s, from + n + 1, k, 48);
    let end = read_bytes::byte(s, from + n + 1 + k);
    joined(inputs, gap, outputs, end)
}
