// What the arguments of a call say: the decimal number that one is, the words of a symmetric block with what stands before them (02, Ticket
// 6), and the number and the weight limit of a call for why the number was not taken (Ticket 7). Every function here is inner.
#![tactic(auto)]

ghost use Rattle.std.specs.Prelude.{◌≤◌, IfSome};

use block::{FD, FR, LIST_POINTS};
use saying::is_given;
use std::env::Env;

// A number with one digit more. It stays above every point, and every word, once it is.
fn grown(x: usize, digit: u8) -> usize {
    if LIST_POINTS < x {
        return x;
    }
    x * 10 + usize::from(digit)
}

// The decimal number that digits are.
fn number_of(digits: &[u8]) -> Option<usize> {
    if digits.is_empty() {
        return None;
    }
    let mut value = 0;
    for b in digits {
        match *b {
            digit @ b'0'..=b'9' => value = grown(value, digit - b'0'),
            _ => return None,
        }
    }
    Some(value)
}

// The decimal number that argument i is.
pub fn number_at(rt: &impl Env, i: usize) -> Option<usize> {
    let mut name = io::buffer();
    let length = saying::argument(rt, i, &mut name).ok()?;
    number_of(&name[..length])
}

// ---- a symmetric block

// The entry of a missing point, and one that is no word of any block, which a number too large for an entry stands for.
const NO_OUTPUT: u16 = 65535;

const NO_WORD: u16 = 65534;

// The number, or the - of no output, that argument i is, as an entry.
fn word_at(rt: &impl Env, i: usize) -> Option<u16> {
    if is_given(rt, i, b"-") {
        return Some(NO_OUTPUT);
    }
    let number = number_at(rt, i)?;
    Some(u16::try_from(number).unwrap_or(NO_WORD))
}

// Reads the words from argument `from` on, as many as there is room for. None where one of them all is none.
fn read_words(rt: &impl Env, from: usize, words: &mut [u16]) -> Option<()> {
    for i in from..saying::argument_count(rt) {
        let word = word_at(rt, i)?;
        if let Some(entry) = words.get_mut(i - from) {
            *entry = word;
        }
    }
    Some(())
}

// The type that argument 2 is, where it is one.
fn given_type(rt: &impl Env) -> Option<usize> {
    if is_given(rt, 2, b"fr") {
        return Some(FR);
    }
    if is_given(rt, 2, b"fd") {
        return Some(FD);
    }
    None
}

// A call for a symmetric block: the number of outputs, the type and the number of words, at least 1.
#[derive(Clone, Copy)]
pub struct SymmetricCall {
    pub k: usize,
    pub block_type: usize,
    pub count: usize,
}

// A call whose number of outputs is argument `at`, where it has the form. Its words are stored as far as there is room.
fn call_from(
    rt: &impl Env,
    at: usize,
    block_type: usize,
    words: &mut [u16],
) -> Option<SymmetricCall>
    requires { at ≤ 3 }
    ensures { IfSome result (λ call. 1 ≤ call.count) }
{
    let given = saying::argument_count(rt);
    let k = number_at(rt, at)?;
    read_words(rt, at + 1, words)?;
    if given < at + 2 {
        return None;
    }
    Some(SymmetricCall {
        k,
        block_type,
        count: given - at - 1,
    })
}

// [fr|fd] K WORD.., after the option. The type is fd where none is said.
pub fn symmetric_call(rt: &impl Env, words: &mut [u16]) -> Option<SymmetricCall>
    ensures { IfSome result (λ call. 1 ≤ call.count) }
{
    match given_type(rt) {
        Some(block_type) => call_from(rt, 3, block_type, words),
        None => call_from(rt, 2, FD, words),
    }
}

// ---- why a number was not taken

// A call for why t was not taken: t, and the weight limit where it names one.
#[derive(Clone, Copy)]
pub struct WhyCall {
    pub t: usize,
    pub limit: Option<usize>,
}

// T [W], after the option, where the call has the form.
pub fn why_call(rt: &impl Env) -> Option<WhyCall> {
    let given = saying::argument_count(rt);
    if 4 < given {
        return None;
    }
    let t = number_at(rt, 2)?;
    if given < 4 {
        return Some(WhyCall { t, limit: None });
    }
    let w = number_at(rt, 3)?;
    Some(WhyCall { t, limit: Some(w) })
}
