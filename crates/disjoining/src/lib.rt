// Lists that overlap on purpose (02, Ticket 10). One operation, for rows in three flat slices: `disjoin_rows` makes a disjoint list of type fd, whose
// word at each point is the OR of all rows over it, and answers how many rows it has. It answers for every input, and on a refusal what was lent
// holds what it held. This crate holds nothing else.
#![tactic(auto)]

ghost use Rattle.block.specs.Words.{rows_of};
ghost use Rattle.promises.specs.Lent.{lent_flat};
ghost use Rattle.promises.specs.Overlaps.{DisjoinPromise};

use block::{DisjoinAnswer, GIVEN_ROWS};

// The disjoint list of a list whose rows may share points. Of the three slices for its rows the shortest is the room. Refuses with 1, 2, 4, 5 (128
// rows), 6 and, where more than 128 rows would come out, 14.
pub fn disjoin_rows(
    n: usize,
    k: usize,
    masks: &[u32],
    values: &[u32],
    words: &[u32],
    disjoint_masks: &mut [u32],
    disjoint_values: &mut [u32],
    disjoint_words: &mut [u32],
) -> DisjoinAnswer
    ensures { DisjoinPromise n k (rows_of masks.now values.now words.now)
        (lent_flat disjoint_masks.old disjoint_values.old disjoint_words.old
        disjoint_masks.new disjoint_values.new disjoint_words.new) result }
{
    let room = flat_rows::least_room(
        disjoint_masks.len(),
        disjoint_values.len(),
        disjoint_words.len(),
    );
    let v = row_checks::disjoin_checked(n, k, masks, values, words, room);
    if v.number != 0 {
        return DisjoinAnswer::from(v);
    }
    let count = region_work::put_disjoint(
        n,
        masks,
        values,
        words,
        disjoint_masks,
        disjoint_values,
        disjoint_words,
    );
    if GIVEN_ROWS < count {
        return DisjoinAnswer {
            number: 14,
            a: 0,
            b: 0,
            count: 0,
        };
    }
    DisjoinAnswer {
        number: 0,
        a: 0,
        b: 0,
        count,
    }
}
