// Cases of the operations on tables and lists, run: the arguments are files of data/, one case to a line with the answer due (crate
// case_lines has the form; crates why_cases, join_cases and disjoin_cases run the operations `why`, `join` and `disjoin`). A case that is answered
// otherwise is said with what was answered; at the end stands how many were as due. operations.txt, the two of the order, the two of the types,
// spectrum.txt, symmetric.txt, why.txt, undriven.txt, join.txt, join_more.txt and disjoin.txt come from a program of another hand, ranges.txt,
// why_ranges.txt, undriven_ranges.txt, join_ranges.txt and disjoin_ranges.txt have 01's and 02's blocks to try by hand and the ends of each range.
// (type_texts.txt and undriven_texts.txt have cases of reading, writing and the sheet, which the tests from outside run.)
#![tactic(auto)]

ghost use Rattle.std.specs.Prelude.{◌≤◌, length};

use case_lines::{
    Given, HELD, HELD_ENTRY, NUMBERS, Numbers, ROWS, Rooms, entries, every, put_answer, put_list,
    put_number, put_rows, put_table, read_given, read_numbers, read_rooms, read_sizes, read_word,
    result_size,
};
use saying::{STANDARD_OUTPUT, part, room, say};
use std::env::Env;
use std::fs::Files;

// 2^n, for the n of a table.
fn points(n: usize) -> usize {
    if 13 < n {
        return 0;
    }
    1 << n
}

// T and sigma, n numbers each.
fn put_matrices(got: &mut Numbers, basis: &[u32], sigma: &[u32], n: usize) {
    put_list(got, basis, n);
    put_list(got, sigma, n);
}

// table_value n k TYPE t TABLE => N A B value
fn table_value(h: Given, numbers: &[u64], got: &mut Numbers) {
    let table = entries(numbers);
    let r = tables::table_value(h.n, h.k, h.block_type, h.last, part(&table, numbers.len()));
    put_answer(got, r.number, r.a, r.b);
    got.put(r.value);
}

// row_value n k TYPE t ROWS => N A B value
fn row_value(h: Given, numbers: &[u64], got: &mut Numbers) {
    let rows = numbers.len() / 3;
    let masks = every(numbers, 0, 3);
    let values = every(numbers, 1, 3);
    let words = every(numbers, 2, 3);
    let r = lists::row_value(
        h.n,
        h.k,
        h.block_type,
        h.last,
        part(&masks, rows),
        part(&values, rows),
        part(&words, rows),
    );
    put_answer(got, r.number, r.a, r.b);
    got.put(r.value);
}

// fill n k TYPE ROOM ROWS => N A B TABLE
fn fill(h: Given, numbers: &[u64], got: &mut Numbers) {
    let rows = numbers.len() / 3;
    let masks = every(numbers, 0, 3);
    let values = every(numbers, 1, 3);
    let words = every(numbers, 2, 3);
    let mut table = [HELD_ENTRY; NUMBERS];
    let r = lists::fill_table(
        h.n,
        h.k,
        h.block_type,
        part(&masks, rows),
        part(&values, rows),
        part(&words, rows),
        room(&mut table, h.last),
    );
    put_answer(got, r.number, r.a, r.b);
    put_table(got, &table, result_size(r.number, points(h.n)));
}

// table_method n k TYPE w ROOM_TABLE ROOM_T ROOM_SIGMA TABLE => N A B before after T SIGMA SMALLER_TABLE
fn table_method(h: Given, rooms: Rooms, numbers: &[u64], got: &mut Numbers) {
    let table = entries(numbers);
    let mut basis = [HELD; ROWS];
    let mut sigma = [HELD; ROWS];
    let mut smaller = [HELD_ENTRY; NUMBERS];
    let r = tables::table_method(
        h.n,
        h.k,
        h.block_type,
        h.last,
        part(&table, numbers.len()),
        room(&mut basis, rooms.basis),
        room(&mut sigma, rooms.sigma),
        room(&mut smaller, rooms.smaller),
    );
    put_answer(got, r.number, r.a, r.b);
    got.put(r.before);
    got.put(r.after);
    put_matrices(got, &basis, &sigma, result_size(r.number, h.n));
    put_table(got, &smaller, result_size(r.number, points(h.n)));
}

// row_method n k TYPE w ROOM_ROWS ROOM_T ROOM_SIGMA ROWS => N A B before after count T SIGMA SMALLER_ROWS
fn row_method(h: Given, rooms: Rooms, numbers: &[u64], got: &mut Numbers) {
    let rows = numbers.len() / 3;
    let masks = every(numbers, 0, 3);
    let values = every(numbers, 1, 3);
    let words = every(numbers, 2, 3);
    let mut basis = [HELD; ROWS];
    let mut sigma = [HELD; ROWS];
    let mut new_masks = [HELD; ROWS];
    let mut new_values = [HELD; ROWS];
    let mut new_words = [HELD; ROWS];
    let r = lists::row_method(
        h.n,
        h.k,
        h.block_type,
        h.last,
        part(&masks, rows),
        part(&values, rows),
        part(&words, rows),
        room(&mut basis, rooms.basis),
        room(&mut sigma, rooms.sigma),
        room(&mut new_masks, rooms.smaller),
        room(&mut new_values, rooms.smaller),
        room(&mut new_words, rooms.smaller),
    );
    put_answer(got, r.number, r.a, r.b);
    got.put(r.before);
    got.put(r.after);
    got.put(r.count as u64);
    put_matrices(got, &basis, &sigma, result_size(r.number, h.n));
    put_rows(got, &new_masks, &new_values, &new_words, r.count);
}

// restore n k TYPE ROOM SIGMA SMALLER_TABLE => N A B TABLE
fn restore(h: Given, sigma: &[u32], numbers: &[u64], got: &mut Numbers) {
    let smaller = entries(numbers);
    let mut table = [HELD_ENTRY; NUMBERS];
    let r = tables::restore_table(
        h.n,
        h.k,
        h.block_type,
        sigma,
        part(&smaller, numbers.len()),
        room(&mut table, h.last),
    );
    put_answer(got, r.number, r.a, r.b);
    put_table(got, &table, result_size(r.number, points(h.n)));
}

// What the working numbers hold before a call: none of them is 0.
const HELD_SIGNED: i32 = -559038737;

// What a working number is due to end as: 0 at a point of the table, and else what it held.
fn working_due(is_point: bool) -> i32 {
    if is_point { 0 } else { HELD_SIGNED }
}

// R, where the working number ended as it is due to; and else a number that no R is.
fn worked(value: u32, left: i32, due: i32) -> u32 {
    if left == due { value } else { 4294967295 }
}

// R at every t, and any beyond that does not hold what it held.
fn put_values(got: &mut Numbers, values: &[u32; NUMBERS], working: &[i32; NUMBERS], size: usize) {
    for t in 0..NUMBERS {
        let value = worked(values[t], working[t], working_due(t < size));
        put_number(got, t < size, value);
    }
}

// spectrum n k TYPE ROOM_R ROOM_WORK TABLE => N A B R
fn spectrum_of(h: Given, room_working: usize, numbers: &[u64], got: &mut Numbers) {
    let table = entries(numbers);
    let mut values = [HELD; NUMBERS];
    let mut working = [HELD_SIGNED; NUMBERS];
    let r = spectrum::table_spectrum(
        h.n,
        h.k,
        h.block_type,
        part(&table, numbers.len()),
        room(&mut values, h.last),
        room(&mut working, room_working),
    );
    put_answer(got, r.number, r.a, r.b);
    put_values(got, &values, &working, result_size(r.number, points(h.n)));
}

// gray n k TYPE ROOM_TABLE ROOM_SMALLER WORDS => N A B before after TABLE SMALLER_TABLE
fn gray(h: Given, room_smaller: usize, numbers: &[u64], got: &mut Numbers) {
    let words = entries(numbers);
    let mut table = [HELD_ENTRY; NUMBERS];
    let mut smaller = [HELD_ENTRY; NUMBERS];
    let r = symmetric::symmetric_block(
        h.n,
        h.k,
        h.block_type,
        part(&words, numbers.len()),
        room(&mut table, h.last),
        room(&mut smaller, room_smaller),
    );
    put_answer(got, r.number, r.a, r.b);
    got.put(r.before);
    got.put(r.after);
    let size = result_size(r.number, points(h.n));
    put_table(got, &table, size);
    put_table(got, &smaller, size);
}

// symmetric n k TYPE TABLE => N A B yes|no
fn symmetric_of(h: Given, numbers: &[u64], got: &mut Numbers) {
    let table = entries(numbers);
    let r = symmetric::table_symmetric(h.n, h.k, h.block_type, part(&table, numbers.len()));
    put_answer(got, r.number, r.a, r.b);
    got.put(r.value);
}

// Reads the rooms and the list of a method, and runs it.
fn run_method(name: &[u8], h: Given, text: &[u8], got: &mut Numbers) -> usize
    requires { h.next ≤ length text.now }
    ensures { result ≤ length text.now }
{
    let rooms = read_rooms(text, h.next);
    let mut numbers = Numbers::new();
    let next = read_numbers(text, rooms.next, b' ', &mut numbers);
    match name {
        b"row_method" => row_method(h, rooms, numbers.as_slice(), got),
        _ => table_method(h, rooms, numbers.as_slice(), got),
    }
    next
}

// Reads the matrix and the table of a restoring, and runs it.
fn run_restore(h: Given, text: &[u8], got: &mut Numbers) -> usize
    requires { h.next ≤ length text.now }
    ensures { result ≤ length text.now }
{
    let mut matrix = Numbers::new();
    let from = read_numbers(text, h.next, b' ', &mut matrix);
    let sigma = every(matrix.as_slice(), 0, 1);
    let mut numbers = Numbers::new();
    let next = read_numbers(text, from, b' ', &mut numbers);
    restore(
        h,
        part(&sigma, matrix.as_slice().len()),
        numbers.as_slice(),
        got,
    );
    next
}

// Reads the second room and the list of a spectrum or of a symmetric block, and runs it.
fn run_lent(name: &[u8], h: Given, text: &[u8], got: &mut Numbers) -> usize
    requires { h.next ≤ length text.now }
    ensures { result ≤ length text.now }
{
    let second = read_word(text, h.next);
    let mut numbers = Numbers::new();
    let next = read_numbers(text, second.next, b' ', &mut numbers);
    match name {
        b"gray" => gray(h, second.value as usize, numbers.as_slice(), got),
        _ => spectrum_of(h, second.value as usize, numbers.as_slice(), got),
    }
    next
}

// Reads the sizes and the table of a question whether it is symmetric, and asks.
fn run_symmetric(text: &[u8], at: usize, got: &mut Numbers) -> usize
    requires { at ≤ length text.now }
    ensures { result ≤ length text.now }
{
    let h = read_sizes(text, at);
    let mut numbers = Numbers::new();
    let next = read_numbers(text, h.next, b' ', &mut numbers);
    symmetric_of(h, numbers.as_slice(), got);
    next
}

// Reads the list of an operation that is given nothing else, and runs it: nothing for a name that is none.
fn run_listed(name: &[u8], h: Given, text: &[u8], got: &mut Numbers) -> usize
    requires { h.next ≤ length text.now }
    ensures { result ≤ length text.now }
{
    let mut numbers = Numbers::new();
    let next = read_numbers(text, h.next, b' ', &mut numbers);
    match name {
        b"table_value" => table_value(h, numbers.as_slice(), got),
        b"row_value" => row_value(h, numbers.as_slice(), got),
        b"fill" => fill(h, numbers.as_slice(), got),
        _ => (),
    }
    next
}

// Runs the operation of a name that is given t, w or a room, and what follows.
fn run_given(name: &[u8], text: &[u8], at: usize, got: &mut Numbers) -> usize
    requires { at ≤ length text.now }
    ensures { result ≤ length text.now }
{
    let h = read_given(text, at);
    match name {
        b"row_method" | b"table_method" => run_method(name, h, text, got),
        b"restore" => run_restore(h, text, got),
        b"spectrum" | b"gray" => run_lent(name, h, text, got),
        _ => run_listed(name, h, text, got),
    }
}

// Runs the operation of a name on the arguments from a place on, gathers what it answers, and answers the place after the arguments.
fn run(name: &[u8], text: &[u8], at: usize, got: &mut Numbers) -> usize
    requires { at ≤ length text.now }
    ensures { result ≤ length text.now }
{
    match name {
        b"symmetric" => run_symmetric(text, at, got),
        b"why" => why_cases::run_why(text, at, got),
        b"join" => join_cases::run_join(text, at, got),
        b"disjoin" => disjoin_cases::run_disjoin(text, at, got),
        _ => run_given(name, text, at, got),
    }
}

// Says what a case was answered.
fn say_otherwise(line: &[u8], got: &[u64]) {
    say(line);
    say(b"  is answered");
    case_lines::say_numbers(got);
    say(b"\n");
}

// Whether the case of a line has the answer due. One that has another is said.
fn is_as_due(line: &[u8]) -> bool {
    let stop = case_lines::word_end(line, 0);
    let mut got = Numbers::new();
    let next = run(
        &line[..stop],
        line,
        case_lines::after_word(line, stop),
        &mut got,
    );
    let mut due = Numbers::new();
    read_numbers(line, next, b'\n', &mut due);
    if got.as_slice() == due.as_slice() {
        return true;
    }
    say_otherwise(line, got.as_slice());
    false
}

// How many cases of a text have the answer due.
fn count_as_due(text: &[u8]) -> usize {
    text.split_inclusive(|b| *b == b'\n')
        .filter(|line| is_as_due(line))
        .count()
}

// The cases of the file that argument i names.
fn run_file(rt: &(impl Env + Files), i: usize) {
    let mut text = io::large_buffer();
    let count = saying::read_argument(rt, i, &mut text);
    io::print_decimal(STANDARD_OUTPUT, count_as_due(&text[..count]) as u64);
    say(b" cases of ");
    saying::say_argument(rt, i);
    say(b" have the answers due\n");
}

fn main(rt: HostRuntime) {
    for i in 1..saying::argument_count(&rt) {
        run_file(&rt, i);
    }
}
