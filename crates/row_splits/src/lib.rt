// One step of a list of rows that lies at the front of three flat slices, masks, values and words: positions exchanged, then every row flipped
// or split. Every function here is inner.
#![tactic(auto)]

ghost use Rattle.std.specs.Prelude.{◌≡◌, ◌≤◌, ◌<◌, length};
ghost use Rattle.slices.specs.Places.{at, tab, over};
ghost use Rattle.block.specs.Limits.{list_inputs, smaller_rows};
ghost use Rattle.block.specs.Rows.{exchange, split_rows};
ghost use Rattle.flat_rows.specs.Listing.{rows_from};
ghost use Rattle.step_laws.specs.Step.{step_rows};
ghost use Rattle.row_adding.specs.Held.{Held, Room};

use block::{Row, SMALLER_ROWS};

// Positions k and h exchanged in the first p numbers.
pub fn exchange_each(numbers: &mut [u32], p: usize, k: usize, h: usize)
    requires { (p ≤ length numbers.old) × (k < list_inputs) × (h < list_inputs) }
    ensures { numbers.new ≡ over (tab p (λ i. exchange k h (at numbers.old i))) numbers.old }
{
    for i in 0..p {
        numbers[i] = exchanges::exchange_bits(k, h, numbers[i]);
    }
}

// What becomes of the first p rows of one list, put into three other slices; answers how many rows that is, also past SMALLER_ROWS.
pub fn split_rows(
    k: usize,
    v: u32,
    p: usize,
    masks: &[u32],
    values: &[u32],
    words: &[u32],
    out_masks: &mut [u32],
    out_values: &mut [u32],
    out_words: &mut [u32],
) -> usize
    requires k_lt_list_inputs { (k < list_inputs) × (p ≤ smaller_rows) × Room masks.now values.now words.now }
    requires room { Room out_masks.old out_values.old out_words.old }
    ensures value { result ≡ length (split_rows k v (rows_from p masks.now values.now words.now)) }
    ensures held { Held (split_rows k v (rows_from p masks.now values.now words.now)) out_masks.new out_values.new out_words.new }
{
    let mut count: usize = 0;
    for i in 0..p {
        let r = Row {
            mask: masks[i],
            values: values[i],
            word: words[i],
        };
        count = row_adding::add_split(k, v, r, count, out_masks, out_values, out_words);
    }
    count
}

// One step of the list of p rows: positions k and h exchanged, then the flips and splits of v. Answers how many rows that is; the
// slices hold them, unless there are more than SMALLER_ROWS.
pub fn step_rows(
    k: usize,
    h: usize,
    v: u32,
    p: usize,
    masks: &mut [u32],
    values: &mut [u32],
    words: &mut [u32],
) -> usize
    requires { (k < list_inputs) × (h < list_inputs) × (p ≤ smaller_rows) × Room masks.old values.old words.old }
    ensures value { result ≡ length (step_rows k h v (rows_from p masks.old values.old words.old)) }
    ensures held { Held (step_rows k h v (rows_from p masks.old values.old words.old)) masks.new values.new words.new }
{
    let mut new_masks = [0u32; SMALLER_ROWS];
    let mut new_values = [0u32; SMALLER_ROWS];
    let mut new_words = [0u32; SMALLER_ROWS];
    exchange_each(masks, p, k, h);
    exchange_each(values, p, k, h);
    let count = split_rows(
        k,
        v,
        p,
        masks,
        values,
        words,
        &mut new_masks,
        &mut new_values,
        &mut new_words,
    );
    if count <= SMALLER_ROWS {
        copying::copy_first(&new_masks, count, masks);
        copying::copy_first(&new_values, count, values);
        copying::copy_first(&new_words, count, words);
    }
    count
}
