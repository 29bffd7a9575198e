// The table of a text's list, for what the program says of one (02, Tickets 5 and 6). What is answered is promised by `read_text` and
// `fill_table`, each of which may refuse. Every function here is inner.
#![tactic(auto)]

use block::{GIVEN_ROWS, ReadAnswer};
use saying::part;

// Reads a list and fills its table: the answer is the reader's, or the refusal of the filling.
pub fn fill_text(text: &[u8], table: &mut [u16]) -> ReadAnswer {
    let mut masks = [0u32; GIVEN_ROWS];
    let mut values = [0u32; GIVEN_ROWS];
    let mut words = [0u32; GIVEN_ROWS];
    let h = read_kinds::in_numbers(reading::read_text(text, &mut masks, &mut values, &mut words));
    if h.number != 0 {
        return h;
    }
    let r = lists::fill_table(
        h.n,
        h.k,
        h.block_type,
        part(&masks, h.count),
        part(&values, h.count),
        part(&words, h.count),
        table,
    );
    ReadAnswer {
        number: r.number,
        a: r.a,
        b: r.b,
        n: h.n,
        k: h.k,
        block_type: h.block_type,
        type_line: h.type_line,
        count: h.count,
    }
}
