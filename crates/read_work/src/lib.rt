// The work of reading row text (01, Row text): the headings, then the rows from the cursor on, and what the two come to. The operation is
// `read_text` of the crate reading. All functions here are inner.
#![tactic(auto)]

ghost use Rattle.std.specs.Prelude.{◌≡◌, ◌+◌, ◌≤◌, length};
ghost use Rattle.block.specs.Limits.{given_rows};
ghost use Rattle.block.specs.Words.{mask_part, values_part, word_part};
ghost use Rattle.read_laws.specs.ByPlace.{opening_of, closed_of, reading_of, after_of};

use block::{Headings, Kind, Refusal};
use read_laws::BODY_LINE;

// The headings, or the faulty line of the body, by its number in the text: the type line counts where it stands.
#[tactic(auto, unfolding(read_laws::specs::ByPlace::closed_of))]
pub fn closed(h: Headings, fault: usize) -> Result<Headings, Refusal>
    requires { (fault ≤ h.count + 2) × (h.count ≤ given_rows) × (h.type_line ≤ 1) }
    ensures { result ≡ closed_of h fault }
{
    if fault == h.count + 2 {
        return Ok(h);
    }
    Err(Refusal {
        kind: Kind::Form,
        a: BODY_LINE + h.type_line + fault,
        b: 0,
    })
}

// Reads the text by place: the headings, and the rest of the text from the cursor on.
#[tactic(auto, unfolding(read_laws::specs::ByPlace::reading_of, read_laws::specs::ByPlace::after_of))]
pub fn read_from(
    text: &[u8],
    room: usize,
    masks: &mut [u32],
    values: &mut [u32],
    words: &mut [u32],
) -> Result<Headings, Refusal>
    requires { (room ≤ length masks.old) × (room ≤ length values.old) × (room ≤ length words.old) }
    ensures value { result ≡ reading_of text.now (opening_of text.now room) }
    ensures masks_after { masks.new ≡ after_of (opening_of text.now room) text.now mask_part masks.old }
    ensures values_after { values.new ≡ after_of (opening_of text.now room) text.now values_part values.old }
    ensures words_after { words.new ≡ after_of (opening_of text.now room) text.now word_part words.old }
{
    let (h, from) = read_headings::read_headings(text, room)?;
    let fault = read_body::read_rows(&text[from..], h.n, h.k, h.count, masks, values, words);
    closed(h, fault)
}
