// The lines of a sheet, put into a lent slice at a place: a section's first line, numbers, the columns or rows of a matrix, and the
// whole sheet at the front. All functions here are inner: the operation is `sheet` of the crate sheets.
#![tactic(auto)]

ghost use Rattle.std.specs.Prelude.{[], ◌∷◌, ◌+◌, ◌≤◌, length};
ghost use Rattle.block.specs.Sheet.{section, number_lines, matrix_lines, sheet_of};
ghost use Rattle.flat_rows.specs.Listing.{rows_from};
ghost use Rattle.put_bytes.specs.Puts.{Put};
ghost use Rattle.put_sheet.specs.Lines.{sizes_text, front_text, columns_text, table_text};

// Puts a section's first line: its name, a space, its count and LF.
#[tactic(auto, unfolding(block::specs::Sheet::section))]
pub fn put_section(out: &mut [u8], at: usize, name: &[u8], count: usize) -> usize
    requires { at + length (section name.now count) ≤ length out.old }
    ensures { Put out.old at (section name.now count) out.new result }
{
    let a = put_bytes::put_bytes(out, at, name);
    let b = put_bytes::put_byte(out, a, 32);
    let c = put_bytes::put_decimal(out, b, count);
    put_bytes::put_byte(out, c, 10)
}

// Puts a number on a line of its own.
#[tactic(auto, unfolding(block::specs::Sheet::number_lines))]
pub fn put_number(out: &mut [u8], at: usize, v: usize) -> usize
    requires { at + length (number_lines (v ∷ [])) ≤ length out.old }
    ensures { Put out.old at (number_lines (v ∷ [])) out.new result }
{
    let a = put_bytes::put_decimal(out, at, v);
    put_bytes::put_byte(out, a, 10)
}

// Puts a column or row of a matrix, n bits, on a line of its own.
#[tactic(auto, unfolding(block::specs::Sheet::matrix_lines))]
pub fn put_matrix_line(out: &mut [u8], at: usize, n: usize, v: u32) -> usize
    requires { at + length (matrix_lines n (v ∷ [])) ≤ length out.old }
    ensures { Put out.old at (matrix_lines n (v ∷ [])) out.new result }
{
    let a = put_bytes::put_bits(out, at, n, v);
    put_bytes::put_byte(out, a, 10)
}

// Puts the columns or rows of a matrix, n bits each, one to a line.
pub fn put_matrix(out: &mut [u8], at: usize, n: usize, numbers: &[u32]) -> usize
    requires { at + length (matrix_lines n numbers.now) ≤ length out.old }
    ensures { Put out.old at (matrix_lines n numbers.now) out.new result }
{
    let mut to = at;
    for number in numbers {
        to = put_matrix_line(out, to, n, *number);
    }
    to
}

// Puts the sections sheet and size at the front.
#[tactic(auto, unfolding(crate::specs::Lines::sizes_text))]
pub fn put_sizes(out: &mut [u8], n: usize, k: usize, w: usize) -> usize
    requires { length (sizes_text n k w) ≤ length out.old }
    ensures { Put out.old 0 (sizes_text n k w) out.new result }
{
    let a = put_section(out, 0, b"sheet", 1);
    let b = put_section(out, a, b"size", 3);
    let c = put_number(out, b, n);
    let d = put_number(out, c, k);
    put_number(out, d, w)
}

// Puts the sections sheet, size and measure at the front.
#[tactic(auto, unfolding(crate::specs::Lines::front_text))]
pub fn put_front(out: &mut [u8], n: usize, k: usize, w: usize, before: usize, after: usize) -> usize
    requires { length (front_text n k w before after) ≤ length out.old }
    ensures { Put out.old 0 (front_text n k w before after) out.new result }
{
    let a = put_sizes(out, n, k, w);
    let b = put_section(out, a, b"measure", 2);
    let c = put_number(out, b, before);
    put_number(out, c, after)
}

// Puts a section of n columns or rows of n bits each.
#[tactic(auto, unfolding(crate::specs::Lines::columns_text))]
pub fn put_columns(out: &mut [u8], at: usize, name: &[u8], n: usize, numbers: &[u32]) -> usize
    requires { at + length (columns_text name.now n numbers.now) ≤ length out.old }
    ensures { Put out.old at (columns_text name.now n numbers.now) out.new result }
{
    let a = put_section(out, at, name, n);
    put_matrix(out, a, n, numbers)
}

// Puts the section table: its count and the lines of the first rows of three flat slices.
#[tactic(auto, unfolding(crate::specs::Lines::table_text))]
pub fn put_table(
    out: &mut [u8],
    at: usize,
    n: usize,
    k: usize,
    count: usize,
    masks: &[u32],
    values: &[u32],
    words: &[u32],
) -> usize
    requires words_in_bounds { at + length (table_text n k (rows_from count masks.now values.now words.now)) ≤ length out.old }
    requires count_in_bounds { (count ≤ length masks.now) × (count ≤ length values.now) × (count ≤ length words.now) }
    ensures { Put out.old at (table_text n k (rows_from count masks.now values.now words.now)) out.new result }
{
    let a = put_section(out, at, b"table", count);
    put_bytes::put_rows(out, a, n, k, count, masks, values, words)
}

// Puts the sheet at the front: T and sigma are all that basis and sigma hold, and the smaller rows the first of three flat slices.
pub fn put_sheet(
    out: &mut [u8],
    n: usize,
    k: usize,
    w: usize,
    before: usize,
    after: usize,
    basis: &[u32],
    sigma: &[u32],
    count: usize,
    masks: &[u32],
    values: &[u32],
    words: &[u32],
) -> usize
    requires words_in_bounds { length (sheet_of n k w before after basis.now sigma.now (rows_from count masks.now values.now words.now)) ≤ length out.old }
    requires count_in_bounds { (count ≤ length masks.now) × (count ≤ length values.now) × (count ≤ length words.now) }
    ensures { Put out.old 0 (sheet_of n k w before after basis.now sigma.now (rows_from count masks.now values.now words.now)) out.new result }
{
    let a = put_front(out, n, k, w, before, after);
    let b = put_columns(out, a, b"basis", n, basis);
    let c = put_columns(out, b, b"sigma", n, sigma);
    put_table(out, c, n, k, count, masks, values, words)
}
