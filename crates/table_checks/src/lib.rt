// The checks of the operations on tables, in the order of 01's numbers: the least malformed place, and the verdicts, step by step: each
// step is told the answer so far and hands a refusal on. Every function here is inner.
#![tactic(auto)]

ghost use Rattle.std.specs.Prelude.{◌≡◌, not, ◌||◌, [], ◌∷◌, ◌+◌, ◌≤◌, eqb, ltb, length};
ghost use Rattle.slices.specs.Places.{at, first};
ghost use Rattle.block.specs.Limits.{list_inputs, outputs};
ghost use Rattle.block.specs.Words.{missing};
ghost use Rattle.block.specs.Refusals.{verdict, and_then, bad_entry, bad_number, malformed};
ghost use Rattle.block.specs.Tables.{table_value_verdict, table_method_verdict, spectrum_verdict};
ghost use Rattle.block.specs.Symmetric.{symmetric_verdict, table_symmetric_verdict};
ghost use Rattle.table_checks.specs.Restoring.{restore_checked};

use block::{Answer, TABLE_INPUTS};

// Whether a table entry is neither below 2^k nor the word of a missing point.
pub fn is_bad_entry(missing: u32, k: usize, x: u16) -> bool
    requires { k ≤ outputs }
    ensures { result ≡ bad_entry missing k x }
{
    let word = u32::from(x);
    word >= bit_work::power(k) && word != missing
}

// The least entry that is malformed, or the table's length.
pub fn first_bad_entry(missing: u32, k: usize, table: &[u16]) -> usize
    requires { k ≤ outputs }
    ensures { result ≡ first (length table.now) (λ i. bad_entry missing k (at table.now i)) }
{
    for (i, x) in table.iter().enumerate() {
        if is_bad_entry(missing, k, *x) {
            return i;
        }
    }
    table.len()
}

// Whether a matrix row is not below 2^n.
pub fn is_bad_number(n: usize, x: u32) -> bool
    requires { n ≤ list_inputs }
    ensures { result ≡ bad_number n x }
{
    x >= bit_work::power(n)
}

// The least matrix row that is malformed, or the number of rows.
pub fn first_bad_number(n: usize, rows: &[u32]) -> usize
    requires { n ≤ list_inputs }
    ensures { result ≡ first (length rows.now) (λ i. bad_number n (at rows.now i)) }
{
    for (i, x) in rows.iter().enumerate() {
        if is_bad_number(n, *x) {
            return i;
        }
    }
    rows.len()
}

// 6 for a matrix.
pub fn then_matrix(v: Answer, n: usize, rows: &[u32]) -> Answer
    requires { v.number ≡ 0 → n ≤ list_inputs }
    ensures { result ≡ and_then v (verdict (malformed 1 (bad_number n) rows.now ∷ [])) }
{
    if v.number != 0 {
        return v;
    }
    let i = first_bad_number(n, rows);
    shared_checks::refuse_where(i < rows.len(), 6, 1, i)
}

// 6 for a table of a type.
pub fn then_entries(v: Answer, k: usize, block_type: usize, table: &[u16]) -> Answer
    requires { v.number ≡ 0 → k ≤ outputs }
    ensures { result ≡ and_then v (verdict (malformed 0 (bad_entry (missing block_type) k) table.now ∷ [])) }
{
    if v.number != 0 {
        return v;
    }
    let missing = shared_checks::missing_word(block_type);
    let i = first_bad_entry(missing, k, table);
    shared_checks::refuse_where(i < table.len(), 6, 0, i)
}

// The verdict on a single shift value of a table.
pub fn table_value_verdict(n: usize, k: usize, block_type: usize, t: usize, table: &[u16]) -> Answer
    ensures { result ≡ table_value_verdict n k block_type t table.now }
{
    let sizes = shared_checks::sizes(TABLE_INPUTS, n, k, block_type);
    let size = shared_checks::size_of(n);
    let below = t < size;
    let point = shared_checks::then_where(sizes, !below, 3, 0, 0);
    let whole = shared_checks::then_where(point, table.len() != size, 4, 0, 0);
    then_entries(whole, k, block_type, table)
}

// The verdict on the table method.
pub fn table_method_verdict(
    n: usize,
    k: usize,
    block_type: usize,
    w: usize,
    table: &[u16],
    room_t: usize,
    room_sigma: usize,
    room_table: usize,
) -> Answer
    ensures { result ≡ table_method_verdict n k block_type w table.now room_t room_sigma room_table }
{
    let sizes = shared_checks::sizes(TABLE_INPUTS, n, k, block_type);
    let size = shared_checks::size_of(n);
    let weight = shared_checks::then_where(sizes, shared_checks::is_outside(1, n, w), 3, 0, 0);
    let whole = shared_checks::then_where(weight, table.len() != size, 4, 0, 0);
    let short = shared_checks::is_short(n, room_t, room_sigma, size, room_table);
    let lent = shared_checks::then_where(whole, short, 5, 0, 0);
    then_entries(lent, k, block_type, table)
}

// Whether one of two lent rooms has fewer than `size` entries.
pub fn is_either_short(size: usize, first: usize, second: usize) -> bool
    ensures { result ≡ ltb first size || ltb second size }
{
    first < size || second < size
}

// The verdict on R at every t, by the spectrum.
pub fn spectrum_verdict(
    n: usize,
    k: usize,
    block_type: usize,
    table: &[u16],
    room_values: usize,
    room_working: usize,
) -> Answer
    ensures { result ≡ spectrum_verdict n k block_type table.now room_values room_working }
{
    let sizes = shared_checks::sizes(TABLE_INPUTS, n, k, block_type);
    let size = shared_checks::size_of(n);
    let whole = shared_checks::then_where(sizes, table.len() != size, 4, 0, 0);
    let short = is_either_short(size, room_values, room_working);
    let lent = shared_checks::then_where(whole, short, 5, 0, 0);
    then_entries(lent, k, block_type, table)
}

// Whether there is another number of words than one for each count of one-bits, n + 1. That n + 1 may be no number of its type.
pub fn is_other_count(words: usize, n: usize) -> bool
    ensures { result ≡ not (eqb words (n + 1)) }
{
    words == 0 || words - 1 != n
}

// The verdict on a symmetric block of these words.
pub fn symmetric_verdict(
    n: usize,
    k: usize,
    block_type: usize,
    words: &[u16],
    room_table: usize,
    room_smaller: usize,
) -> Answer
    ensures { result ≡ symmetric_verdict n k block_type words.now room_table room_smaller }
{
    let sizes = shared_checks::sizes(TABLE_INPUTS, n, k, block_type);
    let size = shared_checks::size_of(n);
    let other = is_other_count(words.len(), n);
    let whole = shared_checks::then_where(sizes, other, 4, 0, 0);
    let short = is_either_short(size, room_table, room_smaller);
    let lent = shared_checks::then_where(whole, short, 5, 0, 0);
    then_entries(lent, k, block_type, words)
}

// The verdict on whether a table is symmetric.
pub fn table_symmetric_verdict(n: usize, k: usize, block_type: usize, table: &[u16]) -> Answer
    ensures { result ≡ table_symmetric_verdict n k block_type table.now }
{
    let sizes = shared_checks::sizes(TABLE_INPUTS, n, k, block_type);
    let size = shared_checks::size_of(n);
    let whole = shared_checks::then_where(sizes, table.len() != size, 4, 0, 0);
    then_entries(whole, k, block_type, table)
}

// Whether one of two lengths is not what it should be.
pub fn is_unfit(rows: usize, n: usize, entries: usize, size: usize) -> bool
    ensures { result ≡ not (eqb rows n) || not (eqb entries size) }
{
    rows != n || entries != size
}

// The verdict on restoring, but for 8.
pub fn restore_checked(
    n: usize,
    k: usize,
    block_type: usize,
    sigma: &[u32],
    table: &[u16],
    room: usize,
) -> Answer
    ensures { result ≡ verdict (restore_checked n k block_type sigma.now table.now room) }
{
    let sizes = shared_checks::sizes(TABLE_INPUTS, n, k, block_type);
    let size = shared_checks::size_of(n);
    let unfit = is_unfit(sigma.len(), n, table.len(), size);
    let whole = shared_checks::then_where(sizes, unfit, 4, 0, 0);
    let lent = shared_checks::then_where(whole, room < size, 5, 0, 0);
    let rows = then_matrix(lent, n, sigma);
    then_entries(rows, k, block_type, table)
}
