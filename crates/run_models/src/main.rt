// Models in BLIF, run (02, Ticket 4): what is printed with --blif for every list of data/ beside the model that is due, or the line of the
// refusal; and the refusal of each text that is no model, or one whose matrix fails. The arguments are the lists and the texts, each followed
// by what is due. Each that is answered otherwise is named, and the last line has the number of those that are not.
#![tactic(auto)]

ghost use Rattle.std.specs.Prelude.{◌≡◌, length};
ghost use Rattle.block.specs.Limits.{model_room};

use block::{LIST_INPUTS, MODEL_ROOM, OUTPUTS};
use saying::{STANDARD_OUTPUT, part, read_argument, say, say_argument};
use std::env::Env;
use std::fs::Files;

// The bytes of a text, and room for its patterns.
const TEXT_BYTES: usize = 65536;

const PATTERNS: usize = 8192;

// Whether what is printed for a list is what is due.
fn is_printed(list: &[u8], due: &[u8]) -> bool {
    let mut out = [0u8; MODEL_ROOM];
    let count = printing::print_model(list, &mut out);
    &out[..count] == due
}

// Puts the line of the answer to a text at the front.
fn put_answer(text: &[u8], out: &mut [u8; MODEL_ROOM]) -> usize
    ensures { length out.new ≡ model_room }
{
    let mut matrix = [0u32; LIST_INPUTS];
    let mut counts = [0usize; OUTPUTS];
    let mut masks = [0u32; PATTERNS];
    let mut values = [0u32; PATTERNS];
    let r = models::read_model(text, &mut matrix, &mut counts, &mut masks, &mut values);
    put_refusal::put_refusal(out, r.number, r.a, r.b)
}

// Whether a text is refused as is due.
fn is_refused(text: &[u8], due: &[u8]) -> bool {
    let mut out = [0u8; MODEL_ROOM];
    let count = put_answer(text, &mut out);
    part(&out, count) == due
}

// Whether argument i names a list.
fn is_list(rt: &impl Env, i: usize) -> bool {
    let mut name = io::buffer();
    match saying::argument(rt, i, &mut name) {
        Ok(length) => name[..length].ends_with(b".list"),
        Err(_) => false,
    }
}

// Whether the list or text of argument i is answered as argument j has it.
fn is_right(rt: &(impl Env + Files), i: usize, j: usize) -> bool {
    let mut text = [0u8; TEXT_BYTES];
    let length = read_argument(rt, i, &mut text);
    let mut due = [0u8; MODEL_ROOM];
    let size = read_argument(rt, j, &mut due);
    if is_list(rt, i) {
        return is_printed(&text[..length], &due[..size]);
    }
    is_refused(&text[..length], &due[..size])
}

// The same; one that is not is named.
fn is_as_due(rt: &(impl Env + Files), i: usize, j: usize) -> bool {
    if is_right(rt, i, j) {
        return true;
    }
    say_argument(rt, i);
    say(b" is answered otherwise\n");
    false
}

// How many of the arguments' pairs are as due.
fn count_as_due(rt: &(impl Env + Files)) -> usize {
    let pairs = saying::argument_count(rt) / 2;
    (0..pairs)
        .filter(|i| is_as_due(rt, 2 * *i + 1, 2 * *i + 2))
        .count()
}

fn main(rt: HostRuntime) {
    io::print_decimal(STANDARD_OUTPUT, count_as_due(&rt) as u64);
    say(b" lists and texts are answered as is due\n");
}
