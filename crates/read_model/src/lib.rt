// A model of BLIF (02, Ticket 4), read by place from its first line to its last: the heading, the rows of sigma and the outputs. What it
// holds is stored where it fits. The sizes that are read are n, k and the place after them, and of a model n, k and the number of patterns;
// an error is the place of the first line that is not of the form due. All functions here are inner: the operation is `read_lines` of the
// crate model_reading.
#![tactic(auto)]

ghost use Rattle.std.specs.Prelude.{◌≡◌, Ok, ◌+◌, ◌<◌, ◌≤◌};
ghost use Rattle.slices.specs.Places.{tab, first};
ghost use Rattle.block.specs.Model.{word_line};
ghost use Rattle.model_laws.specs.Spaced.{lettered};
ghost use Rattle.read_names.specs.Met.{met_at};
ghost use Rattle.read_model.specs.Whole.{named_at, Inlined, Outlined, Sized, Modelled};

use block::{LIST_INPUTS, OUTPUTS};
use read_names::LOST;

// A line of a word and n names of a letter.
pub fn meet_named(text: &[u8], at: usize, word: &[u8], letter: u8, n: usize) -> usize
    requires { n ≤ 100 }
    ensures { result ≡ met_at text.now at (word_line word.now (tab n (lettered letter))) }
{
    let begun = read_names::meet_bytes(text, at, word);
    let names = read_names::meet_names(text, begun, letter, n);
    read_names::meet_byte(text, names, 10)
}

// How many names of a letter stand on such a line, from 1 to `most`; one more than `most` where there is no such line.
pub fn named(text: &[u8], at: usize, word: &[u8], letter: u8, most: usize) -> usize
    requires { most < 100 }
    ensures { result ≡ first (most + 1) (named_at text.now at word.now letter) }
{
    for n in 1..=most {
        if meet_named(text, at, word, letter, n) != LOST {
            return n;
        }
    }
    most + 1
}

// The outputs' line, for n inputs.
pub fn read_outputs_line(text: &[u8], at: usize, n: usize) -> Result<(usize, usize, usize), usize>
    requires { (1 ≤ n) × (n ≤ 16) }
    ensures { Outlined text.now at n result }
{
    let k = named(text, at, b".outputs", 121, OUTPUTS);
    if OUTPUTS < k {
        return Err(at);
    }
    Ok((n, k, meet_named(text, at, b".outputs", 121, k)))
}

// The inputs' line, and the outputs' line after it.
pub fn read_inputs_line(text: &[u8], at: usize) -> Result<(usize, usize, usize), usize>
    ensures { Inlined text.now at result }
{
    let n = named(text, at, b".inputs", 120, LIST_INPUTS);
    if LIST_INPUTS < n {
        return Err(at);
    }
    let to = meet_named(text, at, b".inputs", 120, n);
    read_outputs_line(text, to, n)
}

// The heading of a model.
pub fn read_sizes(text: &[u8]) -> Result<(usize, usize, usize), usize>
    ensures { Sized text.now result }
{
    let next = read_names::read_line(text, 0, b".model block\n")?;
    read_inputs_line(text, next)
}

// The rows and the outputs, from a place on, of a model with n inputs and k outputs.
pub fn read_rest(
    text: &[u8],
    at: usize,
    n: usize,
    k: usize,
    matrix: &mut [u32],
    counts: &mut [usize],
    masks: &mut [u32],
    values: &mut [u32],
) -> Result<(usize, usize, usize), usize>
    requires { Sized text.now (Ok (n, k, at)) }
    ensures { Modelled text.now matrix.old counts.old masks.old values.old
        matrix.new counts.new masks.new values.new result }
{
    let next = read_sigma::read_rows(text, at, n, matrix)?;
    let patterns = read_outputs::read_outputs(text, next, n, k, counts, masks, values)?;
    Ok((n, k, patterns))
}

// The whole model.
pub fn read_model(
    text: &[u8],
    matrix: &mut [u32],
    counts: &mut [usize],
    masks: &mut [u32],
    values: &mut [u32],
) -> Result<(usize, usize, usize), usize>
    ensures { Modelled text.now matrix.old counts.old masks.old values.old
        matrix.new counts.new masks.new values.new result }
{
    let (n, k, at) = read_sizes(text)?;
    read_rest(text, at, n, k, matrix, counts, masks, values)
}
