// The work of joining with records, which is an operation of the crate records: the arrays that the records were copied out to are lent as flat
// slices to the operation of the same name, which joins the rows there, and are then to be copied in, freed records and all (02, Ticket 9; crate
// record_copies). All functions here are inner.
#![tactic(auto)]

ghost use Rattle.std.specs.Prelude.{◌≡◌, ◌≤◌};
ghost use Rattle.promises.specs.Joins.{JoinPromise};
ghost use Rattle.record_copies.specs.Flat.{held_rows, Sized, listed};
ghost use Rattle.record_copies.specs.Yielded.{lent_arrays};
ghost use Rattle.record_joins.specs.Joined.{due};

use block::JoinAnswer;
use record_copies::FlatRows;

// What joining gives: the rows, how many records are to be copied in, and the answer.
#[derive(Drop)]
pub struct JoinedRows {
    pub flat: FlatRows,
    pub count: usize,
    pub answer: JoinAnswer,
}

// How many of m records joining writes: all of them, or with a refusal none.
pub fn records_due(answer: JoinAnswer, m: usize) -> usize
    ensures { result ≡ due answer m }
{
    if answer.number == 0 { m } else { 0 }
}

// Joins the rows of the first m places of the arrays.
pub fn join_of(n: usize, k: usize, flat: FlatRows, m: usize) -> JoinedRows
    requires { Sized flat × (m ≤ held_rows) }
    ensures { JoinPromise n k (listed flat m) (lent_arrays m result.flat result.count) result.answer }
{
    let mut masks = flat.masks;
    let mut values = flat.values;
    let mut words = flat.words;
    let answer = joining::join_rows(n, k, &mut masks[..m], &mut values[..m], &mut words[..m]);
    let joined = FlatRows {
        masks,
        values,
        words,
    };
    JoinedRows {
        flat: joined,
        count: records_due(answer, m),
        answer,
    }
}
