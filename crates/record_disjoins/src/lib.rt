// The work of disjoining with records, which is an operation of the crate records: the arrays that the records were copied out to are lent as flat
// slices to the operation of the same name, and so are arrays for the disjoint rows, which are then to be copied in (02, Ticket 10; crate
// record_copies). All functions here are inner.
#![tactic(auto)]

ghost use Rattle.std.specs.Prelude.{◌≤◌};
ghost use Rattle.promises.specs.Overlaps.{DisjoinPromise};
ghost use Rattle.record_copies.specs.Flat.{held_rows, Sized, listed};
ghost use Rattle.record_copies.specs.Yielded.{lent_arrays};

use block::DisjoinAnswer;
use record_copies::FlatRows;

// What disjoining gives: the disjoint rows, their number, and the answer.
#[derive(Drop)]
pub struct DisjointRows {
    pub flat: FlatRows,
    pub count: usize,
    pub answer: DisjoinAnswer,
}

// The disjoint rows are stored in the first `room` places of the arrays.
pub fn disjoin_into(
    n: usize,
    k: usize,
    flat: FlatRows,
    m: usize,
    disjoint: FlatRows,
    room: usize,
) -> DisjointRows
    requires { Sized flat × (m ≤ held_rows) × Sized disjoint × (room ≤ held_rows) }
    ensures { DisjoinPromise n k (listed flat m) (lent_arrays room result.flat result.count) result.answer }
{
    let masks = flat.masks;
    let values = flat.values;
    let words = flat.words;
    let mut new_masks = disjoint.masks;
    let mut new_values = disjoint.values;
    let mut new_words = disjoint.words;
    let answer = disjoining::disjoin_rows(
        n,
        k,
        &masks[..m],
        &values[..m],
        &words[..m],
        &mut new_masks[..room],
        &mut new_values[..room],
        &mut new_words[..room],
    );
    let made = FlatRows {
        masks: new_masks,
        values: new_values,
        words: new_words,
    };
    DisjointRows {
        flat: made,
        count: answer.count,
        answer,
    }
}

// Disjoins the rows of the first m places of the arrays, where `room` records are lent.
pub fn disjoin_of(n: usize, k: usize, flat: FlatRows, m: usize, room: usize) -> DisjointRows
    requires { Sized flat × (m ≤ held_rows) }
    ensures { DisjoinPromise n k (listed flat m) (lent_arrays room result.flat result.count) result.answer }
{
    let places = record_copies::fits(room);
    let disjoint = record_copies::blank();
    disjoin_into(n, k, flat, m, disjoint, places)
}
