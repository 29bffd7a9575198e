// The program (01, the first section; 02, Tickets 4 to 7, 9 and 10). It reads row text on standard input, at most 8,192 bytes of it, and prints its
// sheet with weight limit 3, or n where n is below 3; called with --blif it prints the model in BLIF in the sheet's place, with --join the list
// with its rows joined, with --disjoint the disjoint list of one whose rows may share points, with --shifts R at every t, by the spectrum, with
// --symmetric whether the block is symmetric, with --why and a number why that was not taken, with the sheet's weight limit or the one that follows.
// Called with --symmetric and words, it reads nothing and prints the symmetric block of these words. Called with --model it reads a model, and
// prints "model INPUTS OUTPUTS PATTERNS", or, where a point follows, "word" and the word there. Whatever it can't answer it answers with the one
// line "refused N A B". What is printed of a list is promised by `print_text`, `print_model`, `print_joined` and `print_disjoint` of the crate
// printing, what is said of a model by `read_model` and `model_value` of the crate models; crates shift_lines, symmetric_lines and why_lines say by
// which promises the rest is said. No contract says which bytes the system reads and writes. A read or a write that fails is told on standard
// error; where a read fails nothing is printed, since the text is not known.
#![tactic(auto)]

ghost use Rattle.std.specs.Prelude.{IfOk};
ghost use Rattle.io.specs.Counts.{IsPrefixLen};

use arguments::WhyCall;
use block::{
    LIST_INPUTS, MODEL_ROOM, ModelAnswer, OUTPUTS, READ_BYTES, SHEET_ROOM, TABLE_INPUTS, TEXT_ROOM,
};
use saying::{STANDARD_ERROR, STANDARD_OUTPUT, part, say, say_bits, say_number, say_refused};
use std::env::Env;
use std::io::{Input, Read};

// The bytes of a model that are read, which are more than any model that is written has, and the patterns that they can hold: a line of one
// has four bytes.
const MODEL_BYTES: usize = 262144;

const MODEL_PATTERNS: usize = MODEL_BYTES / 4;

// Reads until the text ends, as much of it as fits, and answers how many bytes it put at the start, or why a read failed. `saying::read_full`
// does not tell an end from a read that failed, and to ask by one read more would have a person at a terminal end the text twice.
fn read_input(from: &mut impl Read, text: &mut [u8]) -> Result<usize, i32>
    ensures { IfOk result (λ length. IsPrefixLen length text.new) }
{
    let mut done = 0;
    // a while: the step is what one read took
    while done < text.len() {
        match from.read(&mut text[done..]) {
            Ok(0) => break,
            Ok(more) => done += more,
            Err(error) => return Err(saying::number_of(error)),
        }
    }
    Ok(done)
}

// Writes what is printed.
fn print_bytes(bytes: &[u8]) {
    if !io::write_all(STANDARD_OUTPUT, bytes) {
        io::write_all(
            STANDARD_ERROR,
            b"irwystl: standard output did not take all that was printed\n",
        );
    }
}

// Prints the sheet of a text, or why not.
fn print_sheet(text: &[u8]) {
    let mut out = [0u8; SHEET_ROOM];
    let count = printing::print_text(text, &mut out);
    print_bytes(&out[..count]);
}

// Prints the model of a text, or why not.
fn print_model(text: &[u8]) {
    let mut out = [0u8; MODEL_ROOM];
    let count = printing::print_model(text, &mut out);
    print_bytes(&out[..count]);
}

// Prints the rows of a text joined, or why not.
fn print_joined(text: &[u8]) {
    let mut out = [0u8; TEXT_ROOM];
    let count = printing::print_joined(text, &mut out);
    print_bytes(&out[..count]);
}

// Prints the disjoint list of a text, or why not.
fn print_disjoint(text: &[u8]) {
    let mut out = [0u8; TEXT_ROOM];
    let count = printing::print_disjoint(text, &mut out);
    print_bytes(&out[..count]);
}

// What is printed of a list.
#[derive(Clone, Copy)]
enum Due {
    Sheet,
    Model,
    Joined,
    Disjoint,
    Shifts,
    Symmetry,
    Why(WhyCall),
}

// Prints what is due of a text.
fn print_due(due: Due, text: &[u8]) {
    match due {
        Due::Sheet => print_sheet(text),
        Due::Model => print_model(text),
        Due::Joined => print_joined(text),
        Due::Disjoint => print_disjoint(text),
        Due::Shifts => shift_lines::say_shifts(text),
        Due::Symmetry => symmetric_lines::say_symmetry(text),
        Due::Why(call) => why_lines::say_why(text, call),
    }
}

// Prints what is due of the list on standard input.
fn answer_list(rt: &impl Input, due: Due) {
    let mut text = [0u8; READ_BYTES];
    match read_input(&mut rt.reader(), &mut text) {
        Ok(length) => print_due(due, &text[..length]),
        Err(error) => saying::fail(b"irwystl: standard input can't be read", error),
    }
}

// Says that a model was read.
fn say_model(r: ModelAnswer) {
    say(b"model");
    say_number(r.n as u64);
    say_number(r.k as u64);
    say_number(r.patterns as u64);
    say(b"\n");
}

// Says a word of k outputs, highest first.
fn say_word(k: usize, word: u64) {
    say(b"word ");
    say_bits(k, word);
    say(b"\n");
}

// What is asked of a model: what it is, or its word at a point.
#[derive(Clone, Copy)]
enum Asked {
    Model,
    Word(usize),
}

// What the arguments ask: nothing where the second is no number.
fn asked_of(rt: &impl Env) -> Option<Asked> {
    if saying::argument_count(rt) < 3 {
        return Some(Asked::Model);
    }
    let point = arguments::number_at(rt, 2)?;
    Some(Asked::Word(point))
}

// Reads a model, and says what it is, or its word at a point.
fn answer_text(text: &[u8], asked: Asked) {
    let mut matrix = [0u32; LIST_INPUTS];
    let mut counts = [0usize; OUTPUTS];
    let mut masks = [0u32; MODEL_PATTERNS];
    let mut values = [0u32; MODEL_PATTERNS];
    let r = models::read_model(text, &mut matrix, &mut counts, &mut masks, &mut values);
    if r.number != 0 {
        say_refused(r.number, r.a, r.b);
        return;
    }
    let Asked::Word(x) = asked else {
        say_model(r);
        return;
    };
    let v = models::model_value(
        r.n,
        r.k,
        x,
        part(&matrix, r.n),
        part(&counts, r.k),
        part(&masks, r.patterns),
        part(&values, r.patterns),
    );
    if v.number != 0 {
        say_refused(v.number, v.a, v.b);
        return;
    }
    say_word(r.k, v.value);
}

// Answers the model on standard input. One that is longer than what is read is not known, and so not answered.
fn answer_model(rt: &(impl Env + Input)) {
    let Some(asked) = asked_of(rt) else {
        io::write_all(STANDARD_ERROR, b"irwystl: the point is no decimal number\n");
        return;
    };
    let mut text = [0u8; MODEL_BYTES];
    match read_input(&mut rt.reader(), &mut text) {
        Ok(MODEL_BYTES) => {
            io::write_all(
                STANDARD_ERROR,
                b"irwystl: the model has 262,144 bytes or more, and is not read\n",
            );
        }
        Ok(length) => answer_text(&text[..length], asked),
        Err(error) => saying::fail(b"irwystl: standard input can't be read", error),
    }
}

// Says the symmetric block of the words that were given.
fn answer_words(rt: &impl Env) {
    let mut words = [0u16; TABLE_INPUTS + 1];
    let Some(call) = arguments::symmetric_call(rt, &mut words) else {
        io::write_all(
            STANDARD_ERROR,
            b"irwystl: --symmetric takes fr or fd or neither, the number of outputs, and a word for each count: decimal numbers, or - for no output\n",
        );
        return;
    };
    symmetric_lines::say_block(
        call.count - 1,
        call.k,
        call.block_type,
        part(&words, call.count),
    );
}

// Answers --symmetric, of the words that were given, or of the list on standard input where none were.
fn answer_symmetric(rt: &(impl Env + Input)) {
    if saying::argument_count(rt) < 3 {
        answer_list(rt, Due::Symmetry);
        return;
    }
    answer_words(rt);
}

// Answers --why, of the list on standard input.
fn answer_why(rt: &(impl Env + Input)) {
    let Some(call) = arguments::why_call(rt) else {
        io::write_all(
            STANDARD_ERROR,
            b"irwystl: --why takes a number and may take a weight limit, decimal numbers both\n",
        );
        return;
    };
    answer_list(rt, Due::Why(call));
}

// Answers an option.
fn answer_option(rt: &(impl Env + Input), option: &[u8]) {
    match option {
        b"--model" => answer_model(rt),
        b"--blif" => answer_list(rt, Due::Model),
        b"--join" => answer_list(rt, Due::Joined),
        b"--disjoint" => answer_list(rt, Due::Disjoint),
        b"--shifts" => answer_list(rt, Due::Shifts),
        b"--symmetric" => answer_symmetric(rt),
        b"--why" => answer_why(rt),
        _ => {
            io::write_all(STANDARD_ERROR, b"irwystl: there is no such option\n");
        }
    }
}

// Answers what the arguments ask. The first, where there is one, is an option.
fn answer(rt: &(impl Env + Input)) {
    if saying::argument_count(rt) < 2 {
        answer_list(rt, Due::Sheet);
        return;
    }
    let mut option = io::buffer();
    let length = saying::argument(rt, 1, &mut option).unwrap_or(0);
    answer_option(rt, &option[..length]);
}

fn main(rt: HostRuntime) {
    answer(&rt);
}
