// Text, put into a lent slice at a place: bytes, bits, the symbols of a row, decimal numbers and row lines. Each function asks for room
// for the bytes that it puts and no more, and answers the place after them; the one contract `Put` says so, and its law `then` joins two
// puts into one. All functions here are inner: the operations that write text call them.
#![tactic(auto)]

ghost use Rattle.std.specs.Prelude.{◌≡◌, [], ◌∷◌, ◌+◌, ◌≤◌, ◌<◌, length};
ghost use Rattle.block.specs.Words.{row};
ghost use Rattle.block.specs.Text.{decimal, symbols, bits, row_line, row_lines};
ghost use Rattle.block.specs.Model.{symbol_of};
ghost use Rattle.flat_rows.specs.Listing.{rows_from};
ghost use Rattle.put_bytes.specs.Puts.{Put};
ghost use Rattle.put_bytes.specs.Digits.{last_digits};

// Puts one byte.
pub fn put_byte(out: &mut [u8], at: usize, b: u8) -> usize
    requires { at < length out.old }
    ensures { Put out.old at (b ∷ []) out.new result }
{
    out[at] = b;
    at + 1
}

// Puts the bytes of s.
pub fn put_bytes(out: &mut [u8], at: usize, s: &[u8]) -> usize
    requires { at + length s.now ≤ length out.old }
    ensures { Put out.old at s.now out.new result }
{
    for (i, b) in s.iter().enumerate() {
        out[at + i] = *b;
    }
    at + s.len()
}

// Puts the last count digits of v in a base, highest first: by hand, since the promise is over the bytes of a lent slice, and the library's
// printing says nothing of bytes.
pub fn put_digits(out: &mut [u8], at: usize, base: usize, count: usize, v: usize) -> usize
    requires { (0 < base) × (base ≤ 10) × (at + length (last_digits base count v) ≤ length out.old) }
    ensures { Put out.old at (last_digits base count v) out.new result }
{
    let mut rest = v;
    for i in (0..count).rev() {
        out[at + i] = (48 + rest % base) as u8;
        rest /= base;
    }
    at + count
}

// Puts the n lowest bits of v, highest first.
pub fn put_bits(out: &mut [u8], at: usize, n: usize, v: u32) -> usize
    requires { at + length (bits n v) ≤ length out.old }
    ensures { Put out.old at (bits n v) out.new result }
{
    put_digits(out, at, 2, n, v as usize)
}

// The symbol of one input: - where its mask bit is 0, else its value bit.
pub fn symbol(m: u32, v: u32) -> u8
    requires { v < 2 }
    ensures { result ≡ symbol_of m v }
{
    if m == 0 {
        return 45;
    }
    (48 + v) as u8
}

// Puts the n symbols of a row, highest input first.
pub fn put_symbols(out: &mut [u8], at: usize, n: usize, mask: u32, values: u32) -> usize
    requires { at + length (symbols n mask values) ≤ length out.old }
    ensures { Put out.old at (symbols n mask values) out.new result }
{
    let mut m = mask;
    let mut v = values;
    for i in (0..n).rev() {
        out[at + i] = symbol(m % 2, v % 2);
        m /= 2;
        v /= 2;
    }
    at + n
}

// How many digits v has in decimal.
pub fn places(v: usize) -> usize
    ensures { result ≡ length (decimal v) }
{
    v.max(1).ilog10() as usize + 1
}

// Puts v in decimal.
pub fn put_decimal(out: &mut [u8], at: usize, v: usize) -> usize
    requires { at + length (decimal v) ≤ length out.old }
    ensures { Put out.old at (decimal v) out.new result }
{
    let count = places(v);
    put_digits(out, at, 10, count, v)
}

// Puts a row's line: its n symbols, a space, its k bits and LF.
#[tactic(auto, unfolding(block::specs::Text::row_line))]
pub fn put_row(
    out: &mut [u8],
    at: usize,
    n: usize,
    k: usize,
    mask: u32,
    values: u32,
    word: u32,
) -> usize
    requires { at + length (row_line n k (row mask values word)) ≤ length out.old }
    ensures { Put out.old at (row_line n k (row mask values word)) out.new result }
{
    let a = put_symbols(out, at, n, mask, values);
    let b = put_byte(out, a, 32);
    let c = put_bits(out, b, k, word);
    put_byte(out, c, 10)
}

// Puts the lines of the first p rows of three flat slices.
pub fn put_rows(
    out: &mut [u8],
    at: usize,
    n: usize,
    k: usize,
    p: usize,
    masks: &[u32],
    values: &[u32],
    words: &[u32],
) -> usize
    requires words_in_bounds { at + length (row_lines n k (rows_from p masks.now values.now words.now)) ≤ length out.old }
    requires p_in_bounds { (p ≤ length masks.now) × (p ≤ length values.now) × (p ≤ length words.now) }
    ensures { Put out.old at (row_lines n k (rows_from p masks.now values.now words.now)) out.new result }
{
    let mut to = at;
    for i in 0..p {
        to = put_row(out, to, n, k, masks[i], values[i], words[i]);
    }
    to
}
