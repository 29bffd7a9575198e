// Row text, read (01, Row text). One operation: `read_text` reads a text, stores its rows at the front of three lent slices and answers
// n, k, the type, whether its line stands there, and the number of rows; or it refuses, and then the slices hold what they held. This
// crate holds nothing else.
#![tactic(auto)]

ghost use Rattle.block.specs.Text.{numbers};
ghost use Rattle.promises.specs.Lent.{lent_flat};
ghost use Rattle.promises.specs.Texts.{ReadPromise};

use block::{Headings, Refusal};

// Reads the text. The room is the shortest of the three slices. Refuses with 10 for a heading, then 1, 2, 4 and 5, then 10 for the rest.
pub fn read_text(
    text: &[u8],
    masks: &mut [u32],
    values: &mut [u32],
    words: &mut [u32],
) -> Result<Headings, Refusal>
    ensures { ReadPromise text.now
        (lent_flat masks.old values.old words.old masks.new values.new words.new)
        (numbers result) }
{
    let room = flat_rows::least_room(masks.len(), values.len(), words.len());
    read_work::read_from(text, room, masks, values, words)
}
