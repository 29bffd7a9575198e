// Symmetric blocks of up to 12 inputs, whose words depend only on how many inputs are 1, by Gray decoding in place of a search (02, Ticket 6). Two
// operations: `symmetric_block` takes a word for each count of one-bits and puts the block's table, and the smaller table by the Gray columns, to
// the front of two lent slices, and answers with both measures; `table_symmetric` answers whether a table is symmetric. With a refusal lent
// slices hold what they held. This crate holds nothing else: what the operations are made of stands in the crates below it.
#![tactic(auto)]

ghost use Rattle.promises.specs.Symmetric.{SymmetricBlockPromise, TableSymmetricPromise};

use block::{TableMethodAnswer, ValueAnswer};

// The table, the smaller table and both measures of the symmetric block of these words, one for each count of one-bits. Refusals: 1, 2, 3 (the
// type), 4 (a number of words other than n + 1), 5 (2^n entries for each table), 6 (B is the least count whose word is malformed).
pub fn symmetric_block(
    n: usize,
    k: usize,
    block_type: usize,
    words: &[u16],
    table: &mut [u16],
    smaller: &mut [u16],
) -> TableMethodAnswer
    ensures { SymmetricBlockPromise n k block_type words.now table.old smaller.old result
        table.new smaller.new }
{
    let v = table_checks::symmetric_verdict(n, k, block_type, words, table.len(), smaller.len());
    if v.number != 0 {
        return TableMethodAnswer::from(v);
    }
    let measures = symmetric_work::make_symmetric(words, n, table, smaller);
    TableMethodAnswer {
        before: measures.before,
        after: measures.after,
        ..TableMethodAnswer::from(v)
    }
}

// Whether a table is symmetric: 1 where it is, 0 where it is not. No output is compared like a word. Refusals: 1, 2, 3 (the type), 4, 6.
pub fn table_symmetric(n: usize, k: usize, block_type: usize, table: &[u16]) -> ValueAnswer
    ensures { TableSymmetricPromise n k block_type table.now result }
{
    let v = table_checks::table_symmetric_verdict(n, k, block_type, table);
    if v.number != 0 {
        return ValueAnswer::from(v);
    }
    let value = symmetric_work::symmetric_value(table, n);
    ValueAnswer {
        value,
        ..ValueAnswer::from(v)
    }
}
