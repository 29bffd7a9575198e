// The work on symmetric blocks (02, Ticket 6): the table of a list of words, the smaller table by the Gray columns, and whether a table is
// symmetric. Every function here is inner.
#![tactic(auto)]

ghost use Rattle.std.specs.Prelude.{◌≡◌, ◌+◌, ◌≤◌, ◌<◌, ◌^◌, length};
ghost use Rattle.sums.specs.Sums.{one};
ghost use Rattle.slices.specs.Places.{tab, over};
ghost use Rattle.block.specs.Limits.{table_inputs};
ghost use Rattle.block.specs.Words.{of_table};
ghost use Rattle.block.specs.Basis.{columns, smaller};
ghost use Rattle.block.specs.Symmetric.{of_counts, symmetric_table, gray_column, gray_row, is_symmetric};
ghost use Rattle.matrix_laws.specs.Images.{Images};
ghost use Rattle.symmetric_work.specs.Entries.{repeated, Entered};
ghost use Rattle.symmetric_work.specs.Looks.{Looked};
ghost use Rattle.symmetric_work.specs.Work.{Made};

use block::{Measures, TABLE_INPUTS};

// The Gray columns of up to 12 inputs: 1, and then 3 times 1, 2, 4, ..
const COLUMNS: [u16; TABLE_INPUTS] = [1, 3, 6, 12, 24, 48, 96, 192, 384, 768, 1536, 3072];

// These are the Gray columns.
pub fn gray_columns() -> [u16; TABLE_INPUTS]
    ensures { result ≡ tab table_inputs gray_column }
{
    COLUMNS
}

// Row j of sigma, the inverse of the matrix of these columns: the inputs from j up.
pub fn gray_row(n: usize, j: usize) -> u32
    requires { (j ≤ n) × (n ≤ table_inputs) }
    ensures { result ≡ gray_row n j }
{
    bit_work::power(n) - bit_work::power(j)
}

// Repeats the `count` entries before `start` behind it.
fn repeat_before(start: usize, count: usize, out: &mut [u16])
    requires { (count ≤ start) × (start + count ≤ length out.old) × (start + count ≤ 4096) }
    ensures { out.new ≡ over (tab (start + count) (repeated start count out.old)) out.old }
{
    out.copy_within(start - count..start, start);
}

// The entries of a symmetric block from 2^j on, below 2^(j + 1). Those whose inputs from j down to i + 1 are 1 and whose input i is 0 stand behind
// those with these two, i and i + 1, exchanged, which have as many one-bits. The last entry is the first with j + 1 of them.
fn double_entries(words: &[u16], n: usize, j: usize, out: &mut [u16])
    requires { (length words.now ≡ n + 1) × (j < n) × (n ≤ table_inputs) × (2 ^ n ≤ length out.old) × Entered words.now (2 ^ j) out.old }
    ensures { out.new ≡ over (tab (2 ^ (j + 1)) (of_counts words.now)) out.old }
{
    let end = bit_work::size(j + 1);
    for i in (0..j).rev() {
        repeat_before(end - bit_work::size(i + 1), bit_work::size(i), out);
    }
    out[end - 1] = words[j + 1];
}

// The table of a symmetric block.
pub fn put_symmetric(words: &[u16], n: usize, out: &mut [u16])
    requires { (length words.now ≡ n + 1) × (n ≤ table_inputs) × (2 ^ n ≤ length out.old) }
    ensures { out.new ≡ over (symmetric_table words.now n) out.old }
{
    out[0] = words[0];
    for j in 0..n {
        double_entries(words, n, j, out);
    }
}

// Doubles the values of T that are there: those at each z below 2^i become those below 2^(i + 1), each by one XOR with column i.
fn double_points(n: usize, i: usize, column: u16, out: &mut [u16])
    requires { (i < n) × (n ≤ table_inputs) × (2 ^ n ≤ length out.old) × (column ≡ gray_column i) × Images gray_column n (2 ^ i) out.old }
    ensures { out.new ≡ over (tab (2 ^ (i + 1)) (columns gray_column n)) out.old }
{
    let size = bit_work::size(i);
    for z in 0..size {
        out[size + z] = out[z] ^ column;
    }
}

// T at every z below 2^n, by the Gray columns.
fn put_points(n: usize, out: &mut [u16])
    requires { (n ≤ table_inputs) × (2 ^ n ≤ length out.old) }
    ensures { out.new ≡ over (tab (2 ^ n) (columns gray_column n)) out.old }
{
    let by_columns = gray_columns();
    out[0] = 0;
    for i in 0..n {
        double_points(n, i, by_columns[i], out);
    }
}

// The smaller table of any table by the Gray columns: T is laid where the smaller table goes, and then each z has the table's entry at T z.
pub fn put_gray(table: &[u16], n: usize, out: &mut [u16])
    requires { (length table.now ≡ 2 ^ n) × (n ≤ table_inputs) × (2 ^ n ≤ length out.old) }
    ensures { out.new ≡ over (tab (2 ^ n) (smaller (of_table table.now) gray_column n)) out.old }
{
    put_points(n, out);
    for z in 0..table.len() {
        out[z] = table[out[z] as usize];
    }
}

// Looks at the entries at numbers whose lowest zero stands at k, each beside the entry at the number without that zero, which has as many one-bits. False
// says that none differs; true, that the table is not symmetric.
fn is_unlike(table: &[u16], n: usize, k: usize) -> bool
    requires { (length table.now ≡ 2 ^ n) × (n ≤ table_inputs) × (k < n) }
    ensures { Looked table.now n k result }
{
    let step = bit_work::size(k);
    let mut with = step - 1;
    let mut without = step - 1;
    for _ in 0..table.len() / (step + step) {
        if table[with] != table[without] {
            return true;
        }
        with += step + step;
        without += step;
    }
    false
}

// Whether a table is symmetric. Every number is looked at once, by its lowest zero.
pub fn is_symmetric(table: &[u16], n: usize) -> bool
    requires { (length table.now ≡ 2 ^ n) × (n ≤ table_inputs) }
    ensures { result ≡ is_symmetric table.now n }
{
    for k in 0..n {
        if is_unlike(table, n, k) {
            return false;
        }
    }
    true
}

// The same as a number, 1 or 0.
pub fn symmetric_value(table: &[u16], n: usize) -> u64
    requires { (length table.now ≡ 2 ^ n) × (n ≤ table_inputs) }
    ensures { result ≡ one (is_symmetric table.now n) }
{
    u64::from(is_symmetric(table, n))
}

// The table of a symmetric block, its smaller table by the Gray columns, and both measures.
pub fn make_symmetric(words: &[u16], n: usize, table: &mut [u16], out: &mut [u16]) -> Measures
    requires { (length words.now ≡ n + 1) × (1 ≤ n) × (n ≤ table_inputs) × (2 ^ n ≤ length table.old) × (2 ^ n ≤ length out.old) }
    ensures { Made words.now n table.old out.old table.new out.new result }
{
    put_symmetric(words, n, table);
    let size = bit_work::size(n);
    put_gray(&table[..size], n, out);
    symmetric_values::symmetric_measures(words, n)
}
