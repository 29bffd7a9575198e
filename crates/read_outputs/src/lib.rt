// The outputs of a model, read by place: a cover's patterns, the covers one after the other, and the last line. Masks, values and counts are
// stored where they fit and counted all the same, so that one reading tells what a text holds and another stores it. An error is the
// place of the first line that is not of the form due. All functions here are inner.
#![tactic(auto)]

ghost use Rattle.std.specs.Prelude.{◌≡◌, ◌≤◌, ◌<◌, ◌+◌, ◌-◌, false, [], length, set, drop};
ghost use Rattle.block.specs.Limits.{outputs};
ghost use Rattle.block.specs.Model.{names_line, output_cover};
ghost use Rattle.block.specs.ModelRead.{pattern_form};
ghost use Rattle.read_laws.specs.Front.{front};
ghost use Rattle.read_names.specs.Met.{met_at};
ghost use Rattle.block.specs.Limits.{list_inputs};
ghost use Rattle.read_outputs.specs.Cubes.{is_symbol, mask_bit, value_bit, Cubed};
ghost use Rattle.read_outputs.specs.Outputs.{PatternsRead, Ending, last_of};

use read_names::LOST;

// The patterns of an output: the place after them, and the number of patterns up to there.
#[derive(Clone, Copy)]
pub struct Patterns {
    pub at: usize,
    pub count: usize,
}

// Whether a byte is a symbol.
pub fn is_symbol(b: usize) -> bool
    ensures { result ≡ is_symbol b }
{
    b == 48 || b == 49 || b == 45
}

// What the symbol of input i adds to the mask.
pub fn mask_bit(b: usize, i: usize) -> u32
    requires { i < 32 }
    ensures { result ≡ mask_bit b i }
{
    if b == 45 { 0 } else { bit_work::power(i) }
}

// What it adds to the values.
pub fn value_bit(b: usize, i: usize) -> u32
    requires { i < 32 }
    ensures { result ≡ value_bit b i }
{
    if b == 49 { bit_work::power(i) } else { 0 }
}

// A pattern's line, n symbols and " 1": its mask and values, and the place after it.
pub fn read_cube(text: &[u8], at: usize, n: usize) -> Option<(u32, u32, usize)>
    requires { (at ≤ length text.now) × (n ≤ list_inputs) }
    ensures { Cubed text.now n at result }
{
    let mut m: u32 = 0;
    let mut v: u32 = 0;
    for i in 0..n {
        let b = read_bytes::byte(text, at + i);
        if !is_symbol(b) {
            return None;
        }
        m += mask_bit(b, i);
        v += value_bit(b, i);
    }
    let to = read_names::meet_bytes(text, at + n, b" 1\n");
    if to == LOST {
        return None;
    }
    Some((m, v, to))
}

// The patterns from a place on, up to the first line that is none; `count` is the number of those before them.
pub fn read_patterns(
    text: &[u8],
    at: usize,
    n: usize,
    count: usize,
    masks: &mut [u32],
    values: &mut [u32],
) -> Patterns
    requires { (at ≤ length text.now) × (n ≤ list_inputs) × (count ≤ at) }
    ensures patterns_read { PatternsRead text.now n at count masks.old values.old result.at result.count
        masks.new values.new }
    ensures text_value { pattern_form n (front (drop result.at text.now)) ≡ false }
{
    let mut to = at;
    let mut total = count;
    // a while: how many patterns stand there, their lines say
    while let Some((m, v, next)) = read_cube(text, to, n) {
        read_sigma::store(masks, total, m);
        read_sigma::store(values, total, v);
        total += 1;
        to = next;
    }
    Patterns {
        at: to,
        count: total,
    }
}

// Stores a count where it fits.
pub fn store_count(out: &mut [usize], at: usize, v: usize)
    ensures { out.new ≡ set out.old at v }
{
    if at < out.len() {
        out[at] = v;
    }
}

// The patterns of output j, and how many they are.
pub fn read_output(
    text: &[u8],
    at: usize,
    n: usize,
    j: usize,
    count: usize,
    counts: &mut [usize],
    masks: &mut [u32],
    values: &mut [u32],
) -> Patterns
    requires { (at ≤ length text.now) × (n ≤ list_inputs) × (count ≤ at) }
    ensures patterns_read { PatternsRead text.now n at count masks.old values.old result.at result.count
        masks.new values.new }
    ensures text_value { pattern_form n (front (drop result.at text.now)) ≡ false }
    ensures counts_after { counts.new ≡ set counts.old j (result.count - count) }
{
    let p = read_patterns(text, at, n, count, masks, values);
    store_count(counts, j, p.count - count);
    p
}

// The line before the patterns of output j.
pub fn meet_head(text: &[u8], at: usize, n: usize, j: usize) -> usize
    requires { (n ≤ list_inputs) × (j < 100) }
    ensures { result ≡ met_at text.now at (names_line (output_cover n j [])) }
{
    let word = read_names::meet_bytes(text, at, b".names");
    let names = read_names::meet_names(text, word, 122, n);
    let gap = read_names::meet_byte(text, names, 32);
    let name = read_names::meet_name(text, gap, 121, j);
    read_names::meet_byte(text, name, 10)
}

// The last line, after `count` patterns, and nothing more: the number of patterns of the whole model.
pub fn read_last(text: &[u8], at: usize, count: usize) -> Result<usize, usize>
    ensures { result ≡ last_of text.now at count }
{
    let end = read_names::meet_bytes(text, at, b".end\n");
    if end == LOST {
        return Err(at);
    }
    if end != text.len() {
        return Err(end);
    }
    Ok(count)
}

// The covers of all k outputs, and the last line: the number of their patterns.
pub fn read_outputs(
    text: &[u8],
    at: usize,
    n: usize,
    k: usize,
    counts: &mut [usize],
    masks: &mut [u32],
    values: &mut [u32],
) -> Result<usize, usize>
    requires { (n ≤ list_inputs) × (1 ≤ k) × (k ≤ outputs) }
    ensures { Ending text.now n k at counts.old masks.old values.old
        counts.new masks.new values.new result }
{
    let mut to = meet_head(text, at, n, 0);
    if to == LOST {
        return Err(at);
    }
    let mut count = 0;
    for j in 0..k - 1 {
        let p = read_output(text, to, n, j, count, counts, masks, values);
        to = meet_head(text, p.at, n, j + 1);
        if to == LOST {
            return Err(p.at);
        }
        count = p.count;
    }
    let p = read_output(text, to, n, k - 1, count, counts, masks, values);
    read_last(text, p.at, p.count)
}
