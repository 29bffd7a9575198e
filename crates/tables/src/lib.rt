// The operations on full tables of up to 12 inputs, for every caller: a single shift value, the table method, and restoring a table.
// Each takes any numbers and any slices, and answers or refuses as 01 says. Entry x of a table is the word at x; under type fr 65,535
// stands for no output, and under fd it is malformed. T comes by columns, sigma by rows. This crate holds the public operations and
// nothing else.
#![tactic(auto)]

ghost use Rattle.promises.specs.Tables.{TableValuePromise, TableMethodPromise, RestorePromise};

use block::{Answer, TABLE_INPUTS, TableMethodAnswer, ValueAnswer};

// R(t) of a table. Refusals: 1, 2, 3 (the type, t), 4, 6.
pub fn table_value(n: usize, k: usize, block_type: usize, t: usize, table: &[u16]) -> ValueAnswer
    ensures { TableValuePromise n k block_type t table.now result }
{
    let v = table_checks::table_value_verdict(n, k, block_type, t, table);
    if v.number != 0 {
        return ValueAnswer::from(v);
    }
    let value = table_values::shift_at(table, n, t);
    ValueAnswer {
        value: value as u64,
        ..ValueAnswer::from(v)
    }
}

// T, sigma, the smaller table and both measures of a table, with weight limit w. Refusals: 1, 2, 3 (the type, w), 4, 5, 6.
pub fn table_method(
    n: usize,
    k: usize,
    block_type: usize,
    w: usize,
    table: &[u16],
    basis: &mut [u32],
    sigma: &mut [u32],
    smaller: &mut [u16],
) -> TableMethodAnswer
    ensures { TableMethodPromise n k block_type w table.now
        basis.old sigma.old smaller.old result basis.new sigma.new smaller.new }
{
    let v = table_checks::table_method_verdict(
        n,
        k,
        block_type,
        w,
        table,
        basis.len(),
        sigma.len(),
        smaller.len(),
    );
    if v.number != 0 {
        return TableMethodAnswer::from(v);
    }
    let measures = smaller_tables::linearize(table, n, w, basis, sigma, smaller);
    TableMethodAnswer {
        before: measures.before,
        after: measures.after,
        ..TableMethodAnswer::from(v)
    }
}

// The table whose word at x is the smaller table's at sigma x. Refusals: 1, 2, 3 (the type), 4, 5, 6 (the matrix
// first), 8.
pub fn restore_table(
    n: usize,
    k: usize,
    block_type: usize,
    sigma: &[u32],
    smaller: &[u16],
    table: &mut [u16],
) -> Answer
    ensures { RestorePromise n k block_type sigma.now smaller.now table.old result table.new }
{
    let v = table_checks::restore_checked(n, k, block_type, sigma, smaller, table.len());
    if v.number != 0 {
        return v;
    }
    let mut reached = [0u32; TABLE_INPUTS];
    let j = matrix_steps::first_dependent(n, sigma, &mut reached);
    if j < n {
        return shared_checks::refuse(8, j, 0);
    }
    restoring::put_restored(sigma, n, smaller, table);
    shared_checks::refuse(0, 0, 0)
}
