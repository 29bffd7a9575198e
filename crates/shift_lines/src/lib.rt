// What the program says with --shifts: R at every t of the block of a list of up to 12 inputs, by the spectrum of its table (02, Ticket
// 5). The reader, the filling and the spectrum each may refuse; what they answer is promised by `read_text`, `fill_table` and
// `table_spectrum`. Every function here is inner.
#![tactic(auto)]

use block::TABLE_POINTS;
use saying::{part, say, say_bits, say_number, say_refused};

// Says how many values there are.
fn say_count(count: usize) {
    say(b"shifts");
    say_number(count as u64);
    say(b"\n");
}

// Says t as n bits, the highest input first, and R there.
fn say_value(n: usize, t: usize, value: u32) {
    say_bits(n, t as u64);
    say_number(value as u64);
    say(b"\n");
}

// Says R at every t, a line each.
fn say_values(n: usize, values: &[u32]) {
    say_count(values.len());
    for (t, value) in values.iter().enumerate() {
        say_value(n, t, *value);
    }
}

// Says R at every t of a table.
fn say_spectrum(n: usize, k: usize, block_type: usize, table: &[u16]) {
    let mut values = [0u32; TABLE_POINTS];
    let mut working = [0i32; TABLE_POINTS];
    let r = spectrum::table_spectrum(n, k, block_type, table, &mut values, &mut working);
    if r.number != 0 {
        say_refused(r.number, r.a, r.b);
        return;
    }
    say_values(n, part(&values, table.len()));
}

// Says R at every t of a text's block, or why not.
pub fn say_shifts(text: &[u8]) {
    let mut table = [0u16; TABLE_POINTS];
    let h = text_tables::fill_text(text, &mut table);
    if h.number != 0 {
        say_refused(h.number, h.a, h.b);
        return;
    }
    say_spectrum(
        h.n,
        h.k,
        h.block_type,
        part(&table, shared_checks::size_of(h.n)),
    );
}
