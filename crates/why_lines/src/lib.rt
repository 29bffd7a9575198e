// What the program says with --why (02, Ticket 7): of a list and a number t the first reason that holds, in words, with R at t and, where t is the
// XOR of taken numbers, each of these with its step and its R. What is said is promised by `read_text`, `why_not` and `row_value`, each of which
// may refuse. Every function here is inner.
#![tactic(auto)]

use arguments::WhyCall;
use block::{GIVEN_ROWS, LIST_INPUTS, ReadAnswer, Reason};
use saying::{part, say, say_bits, say_number, say_refused};

// The weight limit: the one that was given, or else a sheet's.
fn limit_of(call: WhyCall, n: usize) -> usize {
    match call.limit {
        Some(w) => w,
        None => text_work::weight_limit(n),
    }
}

// Says a number as n bits, the highest input first, and in decimal, and R there.
fn say_shift(h: ReadAnswer, t: usize, masks: &[u32], values: &[u32], words: &[u32]) {
    let r = lists::row_value(h.n, h.k, h.block_type, t, masks, values, words);
    say_bits(h.n, t as u64);
    say_number(t as u64);
    say(b" R");
    say_number(r.value);
    say(b"\n");
}

// How many one-bits a number has.
fn ones_of(x: u64) -> u64 {
    u64::from(x.count_ones())
}

// Says that t is over the weight limit.
fn say_over(t: usize, w: usize) {
    say(b"not taken: it has");
    say_number(ones_of(t as u64));
    say(b" one-bits, and the weight limit is");
    say_number(w as u64);
    say(b"\n");
}

// Says that t was taken.
fn say_taken(step: usize) {
    say(b"taken at step");
    say_number(step as u64);
    say(b"\n");
}

// Says that t is the XOR of a set of taken numbers.
fn say_xor(set: u32) {
    say(b"not taken: it is the XOR of");
    say_number(ones_of(set as u64));
    say(b" taken numbers, each of which stands before it\n");
}

// Says a reason.
fn say_reason(reason: Reason, t: usize, w: usize) {
    match reason {
        Reason::Zero => say(b"not taken: it is 0, the XOR of no input\n"),
        Reason::Over => say_over(t, w),
        Reason::Taken(step) => say_taken(step),
        Reason::Xor(set) => say_xor(set),
    }
}

// The set of steps that a reason names: bit j - 1 stands for step j.
fn set_of(reason: Reason) -> u32 {
    match reason {
        Reason::Xor(set) => set,
        Reason::Zero | Reason::Over | Reason::Taken(_) => 0,
    }
}

// Says a step, the number that it took, and R there.
fn say_step(h: ReadAnswer, step: usize, t: u32, masks: &[u32], values: &[u32], words: &[u32]) {
    say(b"step");
    say_number(step as u64);
    say(b" ");
    say_shift(h, t as usize, masks, values, words);
}

// Says each step of a set.
fn say_steps(
    h: ReadAnswer,
    set: u32,
    taken: &[u32; LIST_INPUTS],
    masks: &[u32],
    values: &[u32],
    words: &[u32],
) {
    for j in 0..LIST_INPUTS {
        if (set >> j) % 2 == 1 {
            say_step(h, j + 1, taken[j], masks, values, words);
        }
    }
}

// Says why t was not taken, of the rows of a text, or why there is no answer.
fn say_of_rows(h: ReadAnswer, call: WhyCall, masks: &[u32], values: &[u32], words: &[u32]) {
    let w = limit_of(call, h.n);
    let mut taken = [0u32; LIST_INPUTS];
    let why = reasons::why_not(
        h.n,
        h.k,
        h.block_type,
        w,
        call.t,
        masks,
        values,
        words,
        &mut taken,
    );
    match why {
        Err(v) => say_refused(v.number, v.a, v.b),
        Ok(reason) => {
            say(b"why ");
            say_shift(h, call.t, masks, values, words);
            say_reason(reason, call.t, w);
            say_steps(h, set_of(reason), &taken, masks, values, words);
        }
    }
}

// Says why t was not taken, of the list of a text, or why there is no answer.
pub fn say_why(text: &[u8], call: WhyCall) {
    let mut masks = [0u32; GIVEN_ROWS];
    let mut values = [0u32; GIVEN_ROWS];
    let mut words = [0u32; GIVEN_ROWS];
    let h = read_kinds::in_numbers(reading::read_text(text, &mut masks, &mut values, &mut words));
    if h.number != 0 {
        say_refused(h.number, h.a, h.b);
        return;
    }
    say_of_rows(
        h,
        call,
        part(&masks, h.count),
        part(&values, h.count),
        part(&words, h.count),
    );
}
