// The covers of the outputs in BLIF (02, Ticket 4): one for each, lowest first, over all of the z, with the smaller rows that have a 1
// there, put into a lent slice where they fit (`Fitted` of put_names). All functions here are inner.
#![tactic(auto)]

ghost use Rattle.std.specs.Prelude.{◌≡◌, [], ◌∷◌, ◌+◌, ◌*◌, ◌^◌, ◌≤◌, ◌<◌, length};
ghost use Rattle.slices.specs.Places.{tab};
ghost use Rattle.block.specs.Model.{pattern, cube_of, cube_line, output_cover, back_covers, patterns_of};
ghost use Rattle.flat_rows.specs.Listing.{rows_from};
ghost use Rattle.put_bytes.specs.Puts.{Put};
ghost use Rattle.put_names.specs.Fitting.{Fitted, reach};
ghost use Rattle.put_chains.specs.Texts.{cover_text};
ghost use Rattle.put_outputs.specs.Patterns.{chosen_text, pattern_text};

// Puts the n symbols of a pattern, z0 first.
pub fn put_cube(out: &mut [u8], at: usize, n: usize, mask: u32, values: u32) -> usize
    requires { at + n ≤ length out.old }
    ensures put { Put out.old at (cube_of n (pattern mask values)) out.new result }
    ensures value { result ≡ at + n }
{
    let mut m = mask;
    let mut v = values;
    for i in 0..n {
        out[at + i] = put_bytes::symbol(m % 2, v % 2);
        m /= 2;
        v /= 2;
    }
    at + n
}

// A pattern's line.
pub fn emit_cube(out: &mut [u8], at: usize, n: usize, mask: u32, values: u32) -> usize
    requires { at + n + 3 ≤ reach }
    ensures fitted { Fitted out.old at (cube_line (cube_of n (pattern mask values))) out.new result }
    ensures value { result ≡ at + n + 3 }
{
    let end = at + n + 3;
    if end <= out.len() {
        let a = put_cube(out, at, n, mask, values);
        return put_bytes::put_bytes(out, a, b" 1\n");
    }
    end
}

// The line that a row brings to an output where its word has the digit d.
pub fn emit_chosen(out: &mut [u8], at: usize, n: usize, d: u32, mask: u32, values: u32) -> usize
    requires { at + n + 3 ≤ reach }
    ensures fitted { Fitted out.old at (chosen_text n d mask values) out.new result }
    ensures upper_bound { result ≤ at + n + 3 }
{
    if d == 0 {
        return at;
    }
    emit_cube(out, at, n, mask, values)
}

// The lines of output j, whose power of two is given: the first p rows with a 1 there.
pub fn emit_patterns(
    out: &mut [u8],
    at: usize,
    n: usize,
    j: usize,
    power: u32,
    p: usize,
    masks: &[u32],
    values: &[u32],
    words: &[u32],
) -> usize
    requires p_bound { (at + p * 103 ≤ reach) × (n < 100) × (power ≡ 2 ^ j) }
    requires p_in_bounds { (p ≤ length masks.now) × (p ≤ length values.now) × (p ≤ length words.now) }
    ensures fact { let rs = rows_from p masks.now values.now words.now in
        Fitted out.old at (pattern_text n (patterns_of j rs)) out.new result }
    ensures upper_bound { result ≤ at + p * 103 }
{
    let mut to = at;
    for i in 0..p {
        to = emit_chosen(out, to, n, words[i] / power % 2, masks[i], values[i]);
    }
    to
}

// The cover of output j, whose power of two is given.
pub fn emit_output(
    out: &mut [u8],
    at: usize,
    n: usize,
    j: usize,
    power: u32,
    p: usize,
    masks: &[u32],
    values: &[u32],
    words: &[u32],
) -> usize
    requires at_bound { (at + 60000 ≤ reach) × (n < 100) × (j < 100) × (p ≤ 512) × (power ≡ 2 ^ j) }
    requires p_in_bounds { (p ≤ length masks.now) × (p ≤ length values.now) × (p ≤ length words.now) }
    ensures fact { let rs = rows_from p masks.now values.now words.now in
        Fitted out.old at (cover_text (output_cover n j (patterns_of j rs) ∷ [])) out.new result }
    ensures upper_bound { result ≤ at + 60000 }
{
    let a = put_names::emit_bytes(out, at, b".names");
    let b = put_names::emit_names(out, a, 122, n);
    let c = put_names::emit(out, b, 32);
    let d = put_names::emit_name(out, c, 121, j);
    let e = put_names::emit(out, d, 10);
    emit_patterns(out, e, n, j, power, p, masks, values, words)
}

// The covers of the k outputs, lowest first.
pub fn emit_back(
    out: &mut [u8],
    at: usize,
    n: usize,
    k: usize,
    p: usize,
    masks: &[u32],
    values: &[u32],
    words: &[u32],
) -> usize
    requires k_bound { (at + k * 60000 ≤ reach) × (n < 100) × (k ≤ 15) × (p ≤ 512) }
    requires p_in_bounds { (p ≤ length masks.now) × (p ≤ length values.now) × (p ≤ length words.now) }
    ensures fact { let rs = rows_from p masks.now values.now words.now in
        Fitted out.old at (cover_text (back_covers n 0 (tab k (λ j. patterns_of j rs)))) out.new result }
    ensures upper_bound { result ≤ at + k * 60000 }
{
    let mut to = at;
    let mut power: u32 = 1;
    for j in 0..k {
        to = emit_output(out, to, n, j, power, p, masks, values, words);
        power *= 2;
    }
    to
}
