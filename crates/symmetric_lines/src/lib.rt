// What the program says with --symmetric (02, Ticket 6): of the words of a symmetric block the block's measures, the Gray columns and the rows
// of sigma, its table and the smaller one; of a list of up to 12 inputs whether its block is symmetric, and by which words. What is said is promised
// by `symmetric_block`, and by `read_text`, `fill_table` and `table_symmetric`, each of which may refuse. Every function here is inner.
#![tactic(auto)]

ghost use Rattle.std.specs.Prelude.{◌≤◌};
ghost use Rattle.block.specs.Limits.{table_inputs};

use block::{FR, TABLE_INPUTS, TABLE_POINTS, TableMethodAnswer};
use saying::{STANDARD_OUTPUT, part, say, say_bits, say_number, say_refused};

// The entry of a point without an output.
const NO_OUTPUT: u16 = 65535;

// ---- the symmetric block of words

// Says how a section begins: its name and how many lines it has.
fn say_section(name: &[u8], count: usize) {
    say(name);
    say_number(count as u64);
    say(b"\n");
}

// Says a number on a line of its own.
fn say_number_line(x: u64) {
    io::print_decimal(STANDARD_OUTPUT, x);
    say(b"\n");
}

// Says a number as n bits, the highest input first, on a line of its own.
fn say_bits_line(n: usize, x: u64) {
    say_bits(n, x);
    say(b"\n");
}

// Says a type by its name.
fn say_type(block_type: usize) {
    if block_type == FR {
        say(b"fr");
    } else {
        say(b"fd");
    }
}

// Says a word of k outputs, highest first: a dash for each where there is no output.
fn say_word(k: usize, word: u16) {
    if word != NO_OUTPUT {
        say_bits(k, word as u64);
        return;
    }
    for _ in 0..k {
        say(b"-");
    }
}

fn say_size(n: usize, k: usize, block_type: usize) {
    say_section(b"size", 3);
    say_number_line(n as u64);
    say_number_line(k as u64);
    say_type(block_type);
    say(b"\n");
}

fn say_words(k: usize, words: &[u16]) {
    say_section(b"words", words.len());
    for word in words {
        say_word(k, *word);
        say(b"\n");
    }
}

fn say_measures(r: TableMethodAnswer) {
    say_section(b"measure", 2);
    say_number_line(r.before);
    say_number_line(r.after);
}

// Says the first n Gray columns, those of T.
fn say_basis(n: usize)
    requires { n ≤ table_inputs }
{
    let columns = symmetric_work::gray_columns();
    say_section(b"basis", n);
    for j in 0..n {
        say_bits_line(n, columns[j] as u64);
    }
}

// Says the rows of sigma.
fn say_sigma(n: usize)
    requires { n ≤ table_inputs }
{
    say_section(b"sigma", n);
    for j in 0..n {
        say_bits_line(n, symmetric_work::gray_row(n, j) as u64);
    }
}

// Says a point, the block's word there and the smaller table's.
fn say_point(n: usize, k: usize, x: usize, word: u16, smaller: u16) {
    say_bits(n, x as u64);
    say(b" ");
    say_word(k, word);
    say(b" ");
    say_word(k, smaller);
    say(b"\n");
}

// Says both tables, a line for each point.
fn say_tables(n: usize, k: usize, table: &[u16; TABLE_POINTS], smaller: &[u16; TABLE_POINTS])
    requires { n ≤ table_inputs }
{
    let size = bit_work::size(n);
    say_section(b"tables", size);
    for x in 0..size {
        say_point(n, k, x, table[x], smaller[x]);
    }
}

// Says T, sigma and both tables.
fn say_linearized(n: usize, k: usize, table: &[u16; TABLE_POINTS], smaller: &[u16; TABLE_POINTS])
    requires { n ≤ table_inputs }
{
    say_basis(n);
    say_sigma(n);
    say_tables(n, k, table, smaller);
}

// Says the symmetric block of these words, or why not.
pub fn say_block(n: usize, k: usize, block_type: usize, words: &[u16]) {
    let mut table = [0u16; TABLE_POINTS];
    let mut smaller = [0u16; TABLE_POINTS];
    let r = symmetric::symmetric_block(n, k, block_type, words, &mut table, &mut smaller);
    if r.number != 0 {
        say_refused(r.number, r.a, r.b);
        return;
    }
    say(b"symmetric block\n");
    say_size(n, k, block_type);
    say_words(k, words);
    say_measures(r);
    say_linearized(n, k, &table, &smaller);
}

// ---- the words of a symmetric list

// Says a word as a call has it: a number, or - for no output.
fn say_given(word: u16) {
    if word == NO_OUTPUT {
        say(b" -");
    } else {
        say_number(word as u64);
    }
}

// The word of a count: that of the least number with so many one-bits.
fn count_word(table: &[u16; TABLE_POINTS], c: usize) -> u16
    requires { c ≤ table_inputs }
{
    table[bit_work::size(c) - 1]
}

// Says the word of each count.
fn say_given_words(n: usize, table: &[u16; TABLE_POINTS])
    requires { n ≤ table_inputs }
{
    for c in 0..n + 1 {
        say_given(count_word(table, c));
    }
}

// Says whether the block of a table is symmetric, and the call by whose words it is made, or why not.
fn say_symmetric(n: usize, k: usize, block_type: usize, table: &[u16; TABLE_POINTS]) {
    let r = symmetric::table_symmetric(n, k, block_type, part(table, shared_checks::size_of(n)));
    if r.number != 0 {
        say_refused(r.number, r.a, r.b);
        return;
    }
    if r.value == 0 {
        say(b"not symmetric\n");
        return;
    }
    say(b"symmetric ");
    say_type(block_type);
    say_number(k as u64);
    say_given_words(n, table);
    say(b"\n");
}

// Says whether the block of a text is symmetric, and by which words, or why not.
pub fn say_symmetry(text: &[u8]) {
    let mut table = [0u16; TABLE_POINTS];
    let h = text_tables::fill_text(text, &mut table);
    if h.number != 0 {
        say_refused(h.number, h.a, h.b);
        return;
    }
    say_symmetric(h.n, h.k, h.block_type, &table);
}
