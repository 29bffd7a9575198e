// Cases of why a number was not taken (02, Ticket 7), run as `why n k TYPE w t ROWS => N A B REASON STEP SET NUMBERS` says: crate case_lines has the
// form of such a line. Every function here is inner: the program run_operations calls them.
#![tactic(auto)]

ghost use Rattle.std.specs.Prelude.{◌≤◌, length};

use block::{LIST_INPUTS, WhyAnswer};
use case_lines::{
    Given, HELD, Numbers, every, put_answer, put_number, read_given, read_numbers, read_word,
    result_size,
};
use saying::part;

// Number, A and B, the reason where there is one, the step and the set.
fn put_why(got: &mut Numbers, r: WhyAnswer) {
    put_answer(got, r.number, r.a, r.b);
    if r.reason != 0 {
        got.put(r.reason as u64);
    }
    got.put(r.step as u64);
    got.put(r.set as u64);
}

// A number of the lent room: one of the set, one taken at another step, which is passed over, or one beyond the steps that does not hold what it
// held.
fn put_step(got: &mut Numbers, of_set: bool, of_step: bool, v: u32) {
    if of_set || !of_step {
        put_number(got, of_set, v);
    }
}

// The numbers taken at the steps of a set, in their order, and any beyond the steps that does not hold what it held.
fn put_taken(got: &mut Numbers, taken: &[u32; LIST_INPUTS], set: u32, steps: usize) {
    for (j, t) in taken.iter().enumerate() {
        put_step(got, (set >> j) % 2 == 1, j < steps, *t);
    }
}

// Asks why t was not taken, with weight limit `h.last`.
fn why_of(h: Given, t: usize, numbers: &[u64], got: &mut Numbers) {
    let rows = numbers.len() / 3;
    let masks = every(numbers, 0, 3);
    let values = every(numbers, 1, 3);
    let words = every(numbers, 2, 3);
    let mut taken = [HELD; LIST_INPUTS];
    let r = reason_numbers::in_numbers(reasons::why_not(
        h.n,
        h.k,
        h.block_type,
        h.last,
        t,
        part(&masks, rows),
        part(&values, rows),
        part(&words, rows),
        &mut taken,
    ));
    put_why(got, r);
    put_taken(got, &taken, r.set, result_size(r.number, h.n));
}

// Reads the sizes, w, t and the list of a case, asks, and answers the place after the list.
pub fn run_why(text: &[u8], at: usize, got: &mut Numbers) -> usize
    requires { at ≤ length text.now }
    ensures { result ≤ length text.now }
{
    let h = read_given(text, at);
    let t = read_word(text, h.next);
    let mut numbers = Numbers::new();
    let next = read_numbers(text, t.next, b' ', &mut numbers);
    why_of(h, t.value as usize, numbers.as_slice(), got);
    next
}
