// The body of row text, read by place from its first line on: the rows, the last line, and nothing more. Every line is looked at before
// anything lent is written. All functions here are inner: the operation is `read_text` of the crate reading.
#![tactic(auto)]

ghost use Rattle.std.specs.Prelude.{◌≡◌, ◌≤◌, length};
ghost use Rattle.slices.specs.Places.{tab, first, over};
ghost use Rattle.block.specs.Limits.{list_inputs, outputs, given_rows, smaller_rows};
ghost use Rattle.block.specs.Words.{mask_part, values_part, word_part};
ghost use Rattle.read_laws.specs.ByPlace.{broken_line, field_of, end_of, fault_of, filled_of};

use block::GIVEN_ROWS;

// Reads the rows up to the first that is broken into working storage, and answers how many: p where none is.
pub fn read_sound(
    s: &[u8],
    n: usize,
    k: usize,
    p: usize,
    masks: &mut [u32],
    values: &mut [u32],
    words: &mut [u32],
) -> usize
    requires n_le_list_inputs { (n ≤ list_inputs) × (k ≤ outputs) × (p ≤ smaller_rows) }
    requires p_in_bounds { (p ≤ length masks.old) × (p ≤ length values.old) × (p ≤ length words.old) }
    ensures value { result ≡ first p (broken_line s.now n k) }
    ensures masks_after { masks.new ≡ over (tab result (field_of mask_part s.now n k)) masks.old }
    ensures values_after { values.new ≡ over (tab result (field_of values_part s.now n k)) values.old }
    ensures words_after { words.new ≡ over (tab result (field_of word_part s.now n k)) words.old }
{
    let bytes = n + k + 2;
    for i in 0..p {
        match read_row::read_row(s, i * bytes, n, k) {
            None => return i,
            Some(r) => {
                masks[i] = r.mask;
                values[i] = r.values;
                words[i] = r.word;
            }
        }
    }
    p
}

// After p rows: the last line's bytes, and the text's length against its end. The first faulty line, or p + 2.
#[tactic(auto, unfolding(read_laws::specs::ByPlace::end_of))]
pub fn end_of(a: usize, b: usize, c: usize, size: usize, end: usize, p: usize) -> usize
    requires { p ≤ smaller_rows }
    ensures { result ≡ end_of a b c size end p }
{
    if a != 46 || b != 101 || c != 10 {
        return p;
    }
    if size != end {
        return p + 1;
    }
    p + 2
}

// Of the p + 2 lines the first faulty one, from 0, or p + 2, by how many rows stand before one that is broken.
#[tactic(auto, unfolding(read_laws::specs::ByPlace::fault_of))]
pub fn first_fault(s: &[u8], n: usize, k: usize, p: usize, sound: usize) -> usize
    requires { (n ≤ list_inputs) × (k ≤ outputs) × (p ≤ smaller_rows) × (sound ≡ first p (broken_line s.now n k)) }
    ensures { result ≡ fault_of s.now n k p }
{
    if sound < p {
        return sound;
    }
    let e = p * (n + k + 2);
    let a = read_bytes::byte(s, e);
    let b = read_bytes::byte(s, e + 1);
    let c = read_bytes::byte(s, e + 2);
    end_of(a, b, c, s.len(), e + 3, p)
}

// Reads the lines, and stores the rows where no line is faulty. The first faulty line, from 0, or p + 2. Nothing lent is written before every
// line was looked at, so the rows lie in working storage till then.
pub fn read_rows(
    s: &[u8],
    n: usize,
    k: usize,
    p: usize,
    masks: &mut [u32],
    values: &mut [u32],
    words: &mut [u32],
) -> usize
    requires n_le_list_inputs { (n ≤ list_inputs) × (k ≤ outputs) × (p ≤ given_rows) }
    requires p_in_bounds { (p ≤ length masks.old) × (p ≤ length values.old) × (p ≤ length words.old) }
    ensures value { result ≡ fault_of s.now n k p }
    ensures masks_after { masks.new ≡ filled_of result p (field_of mask_part s.now n k) masks.old }
    ensures values_after { values.new ≡ filled_of result p (field_of values_part s.now n k) values.old }
    ensures words_after { words.new ≡ filled_of result p (field_of word_part s.now n k) words.old }
{
    let mut row_masks = [0u32; GIVEN_ROWS];
    let mut row_values = [0u32; GIVEN_ROWS];
    let mut row_words = [0u32; GIVEN_ROWS];
    let sound = read_sound(s, n, k, p, &mut row_masks, &mut row_values, &mut row_words);
    let fault = first_fault(s, n, k, p, sound);
    if fault != p + 2 {
        return fault;
    }
    copying::copy_first(&row_masks, p, masks);
    copying::copy_first(&row_values, p, values);
    copying::copy_first(&row_words, p, words);
    fault
}
