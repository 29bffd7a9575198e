// What the programs share: lines on standard output, the files that arguments name, and parts of slices. Every function here is inner.
#![tactic(auto)]

ghost use Rattle.std.specs.Prelude.{◌≡◌, pos, IfOk};
ghost use Rattle.io.specs.Counts.{IsPrefixLen};

use std::env::{Env, FillError};
use std::fs;
use std::fs::Files;
use std::io::{Error, Read};

// The system's errors by number.
pub mod errors;

// The descriptors of standard output and standard error.
pub const STANDARD_OUTPUT: i32 = 1;

pub const STANDARD_ERROR: i32 = 2;

pub fn say(text: &[u8]) {
    io::write_all(STANDARD_OUTPUT, text);
}

pub fn say_number(x: u64) {
    io::write_all(STANDARD_OUTPUT, b" ");
    io::print_decimal(STANDARD_OUTPUT, x);
}

// Tells on standard error what failed, and why, in the system's words for an error.
pub fn fail(what: &[u8], error: i32) {
    io::write_all(STANDARD_ERROR, what);
    io::write_all(STANDARD_ERROR, b": ");
    io::write_all(STANDARD_ERROR, errors::words_of(error));
    io::write_all(STANDARD_ERROR, b"\n");
}

// The system's number for an error: some number, even where the system names none.
pub fn number_of(error: Error) -> i32
    ensures { result ≡ pos 0 → ⊥ }
{
    match error.raw_os_error() {
        None | Some(0) => errors::EIO,
        Some(number) => number,
    }
}

// A path as the system's calls take it, or the error of one that is no text.
pub fn path_of(bytes: &[u8]) -> Result<&str, i32>
    ensures { IfOk result (λ path. path.now ≡ bytes.now) }
{
    std::str::from_utf8(bytes).map_err(|_| errors::EILSEQ)
}

// Puts the program's argument i at the start of a buffer, and answers how many bytes it has, or why it is not there. Of one that is too
// long the first bytes are there.
pub fn argument(rt: &impl Env, i: usize, buf: &mut [u8]) -> Result<usize, i32>
    ensures { IfOk result (λ length. IsPrefixLen length buf.new) }
{
    match rt.arg(i, buf) {
        Ok(length) => Ok(length),
        Err(FillError::TooLong) => Err(errors::ENAMETOOLONG),
        Err(FillError::NotPresent) => Err(errors::EINVAL),
    }
}

// Whether there is an argument i.
pub fn is_argument(rt: &impl Env, i: usize) -> bool {
    !matches!(argument(rt, i, &mut [0u8; 1]), Err(errors::EINVAL))
}

// Whether argument i is this one.
pub fn is_given(rt: &impl Env, i: usize, text: &[u8]) -> bool {
    let mut name = io::buffer();
    match argument(rt, i, &mut name) {
        Ok(length) => &name[..length] == text,
        Err(_) => false,
    }
}

// How many arguments the program was started with, its own name among them.
pub fn argument_count(rt: &impl Env) -> usize {
    (0..usize::MAX)
        .find(|i| !is_argument(rt, *i))
        .unwrap_or(usize::MAX)
}

// Says a refusal.
pub fn say_refused(number: u32, a: usize, b: usize) {
    say(b"refused");
    say_number(number as u64);
    say_number(a as u64);
    say_number(b as u64);
    say(b"\n");
}

// Says as many of a number's bits as are asked for, from the lowest on, the highest of them first; nothing where they are more than 64.
pub fn say_bits(count: usize, bits: u64) {
    let mut digits = [b'0'; 64];
    if let Some(shown) = digits.get_mut(..count) {
        let mut rest = bits;
        for digit in shown.iter_mut().rev() {
            *digit = b'0' + (rest % 2) as u8;
            rest /= 2;
        }
        say(shown);
    }
}

// Says the program's argument i.
pub fn say_argument(rt: &impl Env, i: usize) {
    let mut name = io::buffer();
    if let Ok(length) = argument(rt, i, &mut name) {
        say(&name[..length]);
    }
}

// Reads until the buffer is full, the input ends or a read fails, and answers how many bytes it put at the start of the buffer.
pub fn read_full(from: &mut impl Read, buf: &mut [u8]) -> usize
    ensures { IsPrefixLen result buf.new }
{
    let mut done = 0;
    // a while: the step is what one read took
    while done < buf.len() {
        let more = from.read(&mut buf[done..]).unwrap_or(0);
        if more == 0 {
            break;
        }
        done += more;
    }
    done
}

// Opens a file to read, or answers why not.
pub fn open_file<R: Files>(rt: &R, path: &[u8]) -> Result<R::File, i32> {
    fs::open(rt, path_of(path)?).map_err(number_of)
}

// The file that argument i names, as much of it as fits; a file that cannot be read is told on standard error.
pub fn read_argument(rt: &(impl Env + Files), i: usize, buf: &mut [u8]) -> usize
    ensures { IsPrefixLen result buf.new }
{
    let mut path = io::buffer();
    let length = argument(rt, i, &mut path).unwrap_or(0);
    match open_file(rt, &path[..length]) {
        Ok(mut file) => read_full(&mut file, buf),
        Err(error) => {
            fail(&path[..length], error);
            0
        }
    }
}

// The first n entries, or all of them.
pub fn part<T>(s: &[T], n: usize) -> &[T] {
    &s[..n.min(s.len())]
}

pub fn room<T>(s: &mut [T], n: usize) -> &mut [T] {
    let count = n.min(s.len());
    &mut s[..count]
}
