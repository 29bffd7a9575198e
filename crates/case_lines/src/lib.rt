// Cases, one to a line, as `OP n k TYPE ARGUMENTS => NUMBER A B RESULTS`: the type is fr, fd or other, or a type number; lists are
// comma-separated, a row is mask:value:word, and - is an empty list. A number repeated is written once, as 5*4096, the answers yes and no
// are the numbers 1 and 0, and the reasons zero, over, taken and xor the numbers 1 to 4. What an operation answers is gathered as numbers in
// the order of the line, and compared with those due. All functions here are inner: a program that runs cases calls them.
#![tactic(auto)]

ghost use Rattle.std.specs.Prelude.{ℕ, List, ◌≡◌, ◌≤◌, length, take};
ghost use Rattle.case_lines.specs.Room.{numbers_most, rows_most};

use std::marker::Model;

// Room for the numbers of a line: those of a table of 13 inputs, and of 600 rows.
pub const NUMBERS: usize = 8300;

pub const ROWS: usize = 600;

// What lent storage holds before a call: no result is either.
pub const HELD: u32 = 2882343476;

pub const HELD_ENTRY: u16 = 43981;

// ---- reading

// A number read, and the place after it.
#[derive(Drop)]
pub struct Numeral {
    pub value: u64,
    pub next: usize,
}

// Reads the digits from a place on, after a number's first; 18 of them count.
pub fn read_number(text: &[u8], from: usize, first: u64) -> Numeral
    requires { from ≤ length text.now }
    ensures { (from ≤ result.next) × (result.next ≤ length text.now) }
{
    let mut value = first;
    for (i, b) in text[from..].iter().enumerate() {
        match *b {
            digit @ b'0'..=b'9' => {
                if value < 100000000000000000 {
                    value = value * 10 + u64::from(digit - b'0');
                }
            }
            _ => {
                return Numeral {
                    value,
                    next: from + i,
                };
            }
        }
    }
    Numeral {
        value,
        next: text.len(),
    }
}

// The place after a word that ends at a place: over the space there.
pub fn after_word(text: &[u8], stop: usize) -> usize
    requires { stop ≤ length text.now }
    ensures { result ≤ length text.now }
{
    text.len().min(stop + 1)
}

// Reads a number that is a word of its own, and passes over the space after it.
pub fn read_word(text: &[u8], from: usize) -> Numeral
    requires { from ≤ length text.now }
    ensures { result.next ≤ length text.now }
{
    let r = read_number(text, from, 0);
    Numeral {
        value: r.value,
        next: after_word(text, r.next),
    }
}

// Where the word that begins at a place ends.
pub fn word_end(text: &[u8], from: usize) -> usize
    requires { from ≤ length text.now }
    ensures { (from ≤ result) × (result ≤ length text.now) }
{
    match text[from..].iter().position(|b| matches!(*b, b' ' | b'\n')) {
        Some(i) => from + i,
        None => text.len(),
    }
}

// The number of a type: that of fr, of fd, or one that is neither's. A number stands for itself.
pub fn type_of(word: &[u8]) -> usize {
    match word {
        b"fr" => 1,
        b"fd" => 2,
        b"other" => 3,
        _ => read_number(word, 0, 0).value as usize,
    }
}

// What a case begins with: n, k, the type, and t, w or a room, 0 where there is none of these; and the place after them.
#[derive(Drop)]
pub struct Given {
    pub n: usize,
    pub k: usize,
    pub block_type: usize,
    pub last: usize,
    pub next: usize,
}

// Of a case with none of t, w and room.
pub fn read_sizes(text: &[u8], from: usize) -> Given
    requires { from ≤ length text.now }
    ensures { result.next ≤ length text.now }
{
    let n = read_word(text, from);
    let k = read_word(text, n.next);
    let from_type = k.next;
    let stop = word_end(text, from_type);
    let block_type = type_of(&text[from_type..stop]);
    Given {
        n: n.value as usize,
        k: k.value as usize,
        block_type,
        last: 0,
        next: after_word(text, stop),
    }
}

// Of a case with one of them.
pub fn read_given(text: &[u8], from: usize) -> Given
    requires { from ≤ length text.now }
    ensures { result.next ≤ length text.now }
{
    let sizes = read_sizes(text, from);
    let last = read_word(text, sizes.next);
    Given {
        last: last.value as usize,
        next: last.next,
        ..sizes
    }
}

// The rooms of a method, and the place after them.
#[derive(Drop)]
pub struct Rooms {
    pub smaller: usize,
    pub basis: usize,
    pub sigma: usize,
    pub next: usize,
}

pub fn read_rooms(text: &[u8], from: usize) -> Rooms
    requires { from ≤ length text.now }
    ensures { result.next ≤ length text.now }
{
    let smaller = read_word(text, from);
    let basis = read_word(text, smaller.next);
    let sigma = read_word(text, basis.next);
    Rooms {
        smaller: smaller.value as usize,
        basis: basis.value as usize,
        sigma: sigma.value as usize,
        next: sigma.next,
    }
}

// ---- lists of numbers

// Numbers read or gathered, and how many there are: as many as there is room for.
#[derive(Drop)]
pub struct Numbers {
    room: [u64; NUMBERS],
    count: usize,
}

// In a clause they are the list of those that are there, never more than there is room for.
impl Model for Numbers {
    ghost Value = { List ℕ };

    ghost view = { λ s. take s.count s.room };

    ghost invariant = { λ s. s.count ≤ numbers_most };
}

impl Numbers {
    // None yet.
    pub fn new() -> Numbers {
        Numbers {
            room: [0; NUMBERS],
            count: 0,
        }
    }

    pub fn as_slice(&self) -> &[u64]
        ensures is_whole { result.now ≡ self.now }
        ensures has_room { length result.now ≤ numbers_most }
    {
        &self.room[..self.count]
    }

    // One number more.
    pub fn put(&mut self, v: u64) {
        if self.count < NUMBERS {
            self.room[self.count] = v;
            self.count += 1;
        }
    }

    // A number so many times more.
    pub fn put_times(&mut self, v: u64, times: u64) {
        if let Some(left) = self.room.get_mut(self.count..) {
            let put = left.len().min(times as usize);
            left[..put].fill(v);
            self.count += put;
        }
    }
}

// How often a number is repeated, where it is, and the place after that.
pub fn read_times(text: &[u8], from: usize) -> Numeral
    requires { from ≤ length text.now }
    ensures { (from ≤ result.next) × (result.next ≤ length text.now) }
{
    match text.get(from) {
        Some(b'*') => read_number(text, from + 1, 0),
        _ => Numeral {
            value: 1,
            next: from,
        },
    }
}

// A number read, how often it stands there, and the place after it.
#[derive(Drop)]
pub struct Repeated {
    pub value: u64,
    pub times: u64,
    pub next: usize,
}

// The number that an answer in letters stands for, by the first of them: no two answers share it.
pub fn lettered(first: u8) -> u64 {
    match first {
        b'y' | b'z' => 1,
        b'o' => 2,
        b't' => 3,
        b'x' => 4,
        _ => 0,
    }
}

// Reads the number that begins with a byte, after which the text goes on at a place: its digits and how often, or that of an answer in
// letters. Any other byte begins none.
pub fn read_repeated(text: &[u8], first: u8, from: usize) -> Repeated
    requires { from ≤ length text.now }
    ensures { (from ≤ result.next) × (result.next ≤ length text.now) }
{
    match first {
        b'0'..=b'9' => {
            let number = read_number(text, from, u64::from(first - b'0'));
            let times = read_times(text, number.next);
            Repeated {
                value: number.value,
                times: times.value,
                next: times.next,
            }
        }
        b'a'..=b'z' => Repeated {
            value: lettered(first),
            times: 1,
            next: word_end(text, from),
        },
        _ => Repeated {
            value: 0,
            times: 0,
            next: from,
        },
    }
}

// Reads the numbers from a place on, up to the byte that ends them, and answers the place after that. Any other byte stands between numbers.
pub fn read_numbers(text: &[u8], from: usize, end: u8, out: &mut Numbers) -> usize
    requires { from ≤ length text.now }
    ensures { result ≤ length text.now }
{
    let mut at = from;
    // a while: the step is the length of the number
    while let Some(b) = text.get(at) {
        at += 1;
        if *b == end {
            break;
        }
        let one = read_repeated(text, *b, at);
        at = one.next;
        out.put_times(one.value, one.times);
    }
    at
}

// ---- what an operation is lent

// Every number from a place on, some steps apart: the masks of rows, say.
pub fn every(numbers: &[u64], from: usize, step: usize) -> [u32; ROWS]
    requires { (from ≤ 3) × (step ≤ 3) }
    ensures { rows_most ≡ length result }
{
    let mut out = [0u32; ROWS];
    for (i, number) in out.iter_mut().enumerate() {
        if let Some(given) = numbers.get(from + step * i) {
            *number = (*given % 4294967296) as u32;
        }
    }
    out
}

// The numbers as entries of a table.
pub fn entries(numbers: &[u64]) -> [u16; NUMBERS]
    ensures { numbers_most ≡ length result }
{
    let mut out = [0u16; NUMBERS];
    for (entry, number) in out.iter_mut().zip(numbers) {
        *entry = (*number % 65536) as u16;
    }
    out
}

// ---- what it answers

// How many numbers a result has: none with a refusal.
pub fn result_size(number: u32, size: usize) -> usize {
    if number != 0 {
        return 0;
    }
    size
}

// Number, A and B.
pub fn put_answer(out: &mut Numbers, number: u32, a: usize, b: usize) {
    out.put(number as u64);
    out.put(a as u64);
    out.put(b as u64);
}

// A number of storage that was lent: one of the result, or one beyond it that does not hold what it held.
pub fn put_lent(out: &mut Numbers, of_result: bool, now: u64, held: u64) {
    if of_result || now != held {
        out.put(now);
    }
}

pub fn put_number(out: &mut Numbers, of_result: bool, v: u32) {
    put_lent(out, of_result, u64::from(v), u64::from(HELD));
}

// The first n numbers of a lent list, and any beyond them that does not hold what it held.
pub fn put_list(out: &mut Numbers, list: &[u32], n: usize) {
    for (i, v) in list.iter().enumerate() {
        put_number(out, i < n, *v);
    }
}

// The same of a table.
pub fn put_table(out: &mut Numbers, table: &[u16], n: usize) {
    for (i, v) in table.iter().enumerate() {
        put_lent(out, i < n, u64::from(*v), u64::from(HELD_ENTRY));
    }
}

// The same of rows, which lie in three lists.
pub fn put_rows(
    out: &mut Numbers,
    masks: &[u32; ROWS],
    values: &[u32; ROWS],
    words: &[u32; ROWS],
    n: usize,
) {
    for i in 0..ROWS {
        put_number(out, i < n, masks[i]);
        put_number(out, i < n, values[i]);
        put_number(out, i < n, words[i]);
    }
}

// Says numbers.
pub fn say_numbers(numbers: &[u64]) {
    for x in numbers {
        saying::say_number(*x);
    }
}
