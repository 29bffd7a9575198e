// Joining rows afterwards (02, Ticket 9). One operation, for rows in three flat slices, in place: `join_rows` writes two rows as one, the next
// pair first, while there is such a pair, and answers how many rows are left; each freed record is all zeros. The block at each point is
// unchanged, whichever type the list is of, so that none is asked for. It answers for every input, and on a refusal the slices hold what they
// held. This crate holds nothing else.
#![tactic(auto)]

ghost use Rattle.block.specs.Words.{rows_of};
ghost use Rattle.promises.specs.Lent.{lent_flat};
ghost use Rattle.promises.specs.Joins.{JoinPromise};

use block::JoinAnswer;

// Joins the rows of a list, of up to 512 rows. Refuses with 1, 2, 4, 6 and 7.
pub fn join_rows(
    n: usize,
    k: usize,
    masks: &mut [u32],
    values: &mut [u32],
    words: &mut [u32],
) -> JoinAnswer
    ensures { JoinPromise n k (rows_of masks.old values.old words.old)
        (lent_flat masks.old values.old words.old masks.new values.new words.new) result }
{
    let v = row_checks::join_verdict(n, k, masks, values, words);
    if v.number != 0 {
        return JoinAnswer::from(v);
    }
    let count = join_work::join_all(masks, values, words);
    JoinAnswer {
        count,
        ..JoinAnswer::from(v)
    }
}
