// The program's text, run: 01's example cut at each byte, and every text of data/ with its sheet. Each line of the first part has the
// number of bytes left and what is printed for them: 10 at the line of the cut. The second part names each text whose printed bytes are
// not those of its sheet, and ends with the number of those that are. The arguments are the texts, each followed by its sheet.
#![tactic(auto)]

use block::{READ_BYTES, SHEET_ROOM};
use saying::{STANDARD_OUTPUT, part, read_argument, say, say_argument};
use std::env::Env;
use std::fs::Files;

// What is printed for the first bytes of a text.
fn say_cut(text: &[u8], length: usize) {
    let mut out = [0u8; SHEET_ROOM];
    let count = printing::print_text(part(text, length), &mut out);
    io::print_decimal(STANDARD_OUTPUT, length as u64);
    say(b" ");
    say(part(&out, count));
}

// What is printed for each cut of a text.
fn say_cuts(text: &[u8]) {
    for i in 0..text.len() {
        say_cut(text, i);
    }
}

// Says which text is printed otherwise than its sheet has it.
fn say_differs(rt: &impl Env, i: usize) {
    say_argument(rt, i);
    say(b" is printed otherwise\n");
}

// Whether what is printed for the text of argument i is the sheet of argument j. A text that is printed otherwise is named.
fn is_as_due(rt: &(impl Env + Files), i: usize, j: usize) -> bool {
    let mut text = [0u8; 2 * READ_BYTES];
    let length = read_argument(rt, i, &mut text);
    let mut due = [0u8; SHEET_ROOM + 1];
    let size = read_argument(rt, j, &mut due);
    let mut out = [0u8; SHEET_ROOM];
    let count = printing::print_text(&text[..length], &mut out);
    if part(&out, count) == &due[..size] {
        return true;
    }
    say_differs(rt, i);
    false
}

// How many of the arguments' pairs are as due.
fn count_as_due(rt: &(impl Env + Files)) -> usize {
    let pairs = saying::argument_count(rt) / 2;
    (0..pairs)
        .filter(|i| is_as_due(rt, 2 * *i + 1, 2 * *i + 2))
        .count()
}

fn main(rt: HostRuntime) {
    say_cuts(b".i 3\n.o 2\n.p 4\n00- 01\n11- 01\n01- 10\n10- 10\n.e\n");
    io::print_decimal(STANDARD_OUTPUT, count_as_due(&rt) as u64);
    say(b" texts are printed as their sheets have them\n");
}
