// R of a symmetric block from its words alone, at the numbers of one one-bit and at those of two, and both measures from these. An input that is
// left as it is adds the values of neighbouring counts: so each is folded from what the counts have, and no point is looked at. Every
// function here is inner.
#![tactic(auto)]

ghost use Rattle.std.specs.Prelude.{◌≡◌, ℕ, ◌+◌, ◌≤◌, ◌<◌, length};
ghost use Rattle.slices.specs.Places.{at, tab, over};
ghost use Rattle.block.specs.Limits.{table_inputs};
ghost use Rattle.block.specs.Measure.{shift};
ghost use Rattle.block.specs.Symmetric.{of_counts};
ghost use Rattle.symmetric_laws.specs.Weights.{changed, folded, equal};
ghost use Rattle.symmetric_laws.specs.Blocks.{word_for};
ghost use Rattle.symmetric_values.specs.Values.{Measured};

use block::{Measures, TABLE_INPUTS};

// 1 where the words for a and b one-bits are the same, and both there, and else 0.
fn agree(words: &[u16], a: usize, b: usize) -> u32
    requires { (a < length words.now) × (b < length words.now) }
    ensures value { result ≡ equal (word_for words.now) a b }
    ensures upper_bound { result ≤ 1 }
{
    let word = words[a];
    if word == 65535 {
        return 0;
    }
    u32::from(words[b] == word)
}

// What one input adds that t changes, where c of the others are 1.
fn one_changed(words: &[u16], c: usize) -> u32
    requires { c + 1 < length words.now }
    ensures { result ≡ changed (equal (word_for words.now)) c c }
{
    agree(words, c, c + 1) + agree(words, c + 1, c)
}

// What two inputs add that t changes, where c of the others are 1: their four points have the words for c, c + 1, c + 1 and c + 2 one-bits.
fn two_changed(words: &[u16], c: usize) -> u32
    requires { c + 2 < length words.now }
    ensures { result ≡ changed (changed (equal (word_for words.now))) c c }
{
    let middle = agree(words, c + 1, c + 1);
    (agree(words, c, c + 2) + middle) + (middle + agree(words, c + 2, c))
}

// Adds to each of the first m values the one behind it.
fn fold_once(values: &mut [u32], m: usize)
    requires { (m < length values.old) × ((i : ℕ) → i ≤ m → at values.old i ≤ 16384) }
    ensures { values.new ≡ over (tab m (λ i. at values.old i + at values.old (i + 1))) values.old }
{
    for i in 0..m {
        values[i] += values[i + 1];
    }
}

// The first value after m folds.
fn fold_all(values: &mut [u32], m: usize) -> u32
    requires { (m < length values.old) × (m < table_inputs) × ((i : ℕ) → i ≤ m → at values.old i ≤ 4) }
    ensures { result ≡ folded (at values.old) m 0 }
{
    for left in (0..m).rev() {
        fold_once(values, left + 1);
    }
    values[0]
}

// R of a symmetric block at 1, and so at every number of one one-bit.
pub fn value_at_one(words: &[u16], n: usize) -> u32
    requires { (length words.now ≡ n + 1) × (1 ≤ n) × (n ≤ table_inputs) }
    ensures { result ≡ shift (of_counts words.now) n 1 }
{
    let mut values = [0u32; TABLE_INPUTS];
    for c in 0..n {
        values[c] = one_changed(words, c);
    }
    fold_all(&mut values, n - 1)
}

// R of a symmetric block at 3, and so at every number of two one-bits.
pub fn value_at_two(words: &[u16], n: usize) -> u32
    requires { (length words.now ≡ n + 1) × (2 ≤ n) × (n ≤ table_inputs) }
    ensures { result ≡ shift (of_counts words.now) n 3 }
{
    let mut values = [0u32; TABLE_INPUTS];
    for c in 0..n - 1 {
        values[c] = two_changed(words, c);
    }
    fold_all(&mut values, n - 2)
}

// Both measures of a symmetric block: R at 1 stands for every unit number, and R at 3 for every Gray column but the first.
pub fn symmetric_measures(words: &[u16], n: usize) -> Measures
    requires { (length words.now ≡ n + 1) × (1 ≤ n) × (n ≤ table_inputs) }
    ensures { Measured (of_counts words.now) n result }
{
    let one = value_at_one(words, n) as u64;
    if n < 2 {
        return Measures {
            before: one,
            after: one,
        };
    }
    let two = value_at_two(words, n) as u64;
    let inputs = n as u64;
    Measures {
        before: inputs * one,
        after: one + (inputs - 1) * two,
    }
}
