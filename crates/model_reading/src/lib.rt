// Reading a model of BLIF (02, Ticket 4), by lines of text and flat slices: 10, 5, then 8, and what is stored. A first reading tells what
// the text holds, and only where nothing is refused a second one stores it, so that a refusal leaves the slices alone. All functions here
// are inner.
#![tactic(auto)]

ghost use Rattle.std.specs.Prelude.{◌≡◌, ℕ, ◌≤◌, ◌<◌, ◌^◌, length, take};
ghost use Rattle.slices.specs.Places.{at};
ghost use Rattle.block.specs.Limits.{list_inputs};
ghost use Rattle.block.specs.Refusals.{verdict};
ghost use Rattle.block.specs.ModelRead.{with_model, read_model};
ghost use Rattle.promises.specs.Models.{ReadModelPromise};
ghost use Rattle.read_names.specs.Fate.{ends};
ghost use Rattle.model_reading.specs.Reading.{short, rest_checks};

use block::{LIST_INPUTS, ModelAnswer};

// How many lines end before a place.
pub fn lines_before(text: &[u8], at: usize) -> usize
    ensures value { result ≡ ends (take at text.now) }
    ensures upper_bound { result ≤ length text.now }
{
    text[..at.min(text.len())]
        .iter()
        .filter(|b| **b == 10)
        .count()
}

// Whether some room is too short.
pub fn is_short(
    matrix_room: usize,
    counts_room: usize,
    patterns_room: usize,
    n: usize,
    k: usize,
    patterns: usize,
) -> bool
    ensures { result ≡ short matrix_room counts_room patterns_room n k patterns }
{
    matrix_room < n || counts_room < k || patterns_room < patterns
}

// 5, then 8, for a model that was read.
pub fn rest_answer(
    matrix_room: usize,
    counts_room: usize,
    patterns_room: usize,
    n: usize,
    k: usize,
    patterns: usize,
    rows: &[u32],
) -> ModelAnswer
    requires { (n ≤ list_inputs) × (n ≤ length rows.now) × ((j : ℕ) → j < n → at rows.now j < 2 ^ n) }
    ensures { result ≡ with_model (verdict (rest_checks matrix_room counts_room patterns_room n k patterns rows.now)) n k patterns }
{
    if is_short(matrix_room, counts_room, patterns_room, n, k, patterns) {
        return ModelAnswer {
            number: 5,
            a: 0,
            b: 0,
            n: 0,
            k: 0,
            patterns: 0,
        };
    }
    let mut reached = [0u32; LIST_INPUTS];
    let j = matrix_steps::first_dependent(n, rows, &mut reached);
    if j < n {
        return ModelAnswer {
            number: 8,
            a: j,
            b: 0,
            n: 0,
            k: 0,
            patterns: 0,
        };
    }
    ModelAnswer {
        number: 0,
        a: 0,
        b: 0,
        n,
        k,
        patterns,
    }
}

// The answer to a text, and to room for a matrix, for counts and for patterns.
pub fn model_answer(
    text: &[u8],
    matrix_room: usize,
    counts_room: usize,
    patterns_room: usize,
) -> ModelAnswer
    ensures { result ≡ read_model text.now matrix_room counts_room patterns_room }
{
    let mut rows = [0u32; LIST_INPUTS];
    let mut counts = [0usize; 1];
    let mut masks = [0u32; 1];
    let mut values = [0u32; 1];
    match read_model::read_model(text, &mut rows, &mut counts, &mut masks, &mut values) {
        Err(bad) => ModelAnswer {
            number: 10,
            a: 1 + lines_before(text, bad),
            b: 0,
            n: 0,
            k: 0,
            patterns: 0,
        },
        Ok((n, k, patterns)) => rest_answer(
            matrix_room,
            counts_room,
            patterns_room,
            n,
            k,
            patterns,
            &rows[..n],
        ),
    }
}

// Reads a model: its matrix, the number of patterns of each output, and the patterns of all outputs, to two slices of which the shorter is
// the room. Refusals: 10, 5, 8.
pub fn read_lines(
    text: &[u8],
    matrix: &mut [u32],
    counts: &mut [usize],
    masks: &mut [u32],
    values: &mut [u32],
) -> ModelAnswer
    ensures { ReadModelPromise text.now matrix.old counts.old masks.old values.old result
        matrix.new counts.new masks.new values.new }
{
    let room = masks.len().min(values.len());
    let v = model_answer(text, matrix.len(), counts.len(), room);
    if v.number != 0 {
        return v;
    }
    let _ = read_model::read_model(text, matrix, counts, masks, values);
    v
}
