// R at every t of a full table of up to 12 inputs, by the spectrum, as the Wiener-Khinchin theorem has it (02, Ticket 5). One operation:
// `table_spectrum` puts R at 0, 1, .. 2^n - 1 to the front of a lent slice, works in another, of signed numbers, whose first 2^n end at
// 0, and answers; or it refuses, and then both hold what they held. This crate holds nothing else: what the operation is made of stands
// in the crates below it.
#![tactic(auto)]

ghost use Rattle.promises.specs.Tables.{SpectrumPromise};

use block::Answer;

// R at every t of a table, by its spectrum. Refusals: 1, 2, 3 (the type), 4, 5 (2^n values, 2^n working numbers), 6.
pub fn table_spectrum(
    n: usize,
    k: usize,
    block_type: usize,
    table: &[u16],
    values: &mut [u32],
    working: &mut [i32],
) -> Answer
    ensures { SpectrumPromise n k block_type table.now values.old working.old result
        values.new working.new }
{
    let v = table_checks::spectrum_verdict(n, k, block_type, table, values.len(), working.len());
    if v.number != 0 {
        return v;
    }
    spectrum_work::put_shifts(table, n, values, working);
    v
}
