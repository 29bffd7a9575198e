// Cases of joining (02, Ticket 9), run as `join n k ROWS => N A B COUNT ROWS` says, freed records among the rows: crate case_lines has the form of
// such a line. Every function here is inner: the program run_operations calls them.
#![tactic(auto)]

ghost use Rattle.std.specs.Prelude.{◌≡◌, ◌≤◌, length};
ghost use Rattle.case_lines.specs.Room.{rows_most};

use block::JoinAnswer;
use case_lines::{Numbers, ROWS, every, put_answer, put_lent, read_numbers, read_word};

// Three lists of numbers: masks, values and words.
#[derive(Clone, Copy)]
struct Lists {
    masks: [u32; ROWS],
    values: [u32; ROWS],
    words: [u32; ROWS],
}

// The lists of the rows of a case.
fn lists_of(numbers: &[u64]) -> Lists
    ensures { (rows_most ≡ length result.masks) × (rows_most ≡ length result.values) × (rows_most ≡ length result.words) }
{
    Lists {
        masks: every(numbers, 0, 3),
        values: every(numbers, 1, 3),
        words: every(numbers, 2, 3),
    }
}

// Number, A, B and the count; then every record that was lent, or with a refusal any that does not hold what it held.
fn put_joined(got: &mut Numbers, r: JoinAnswer, now: &Lists, then: &Lists, rows: usize)
    requires { rows ≤ rows_most }
{
    let answered = r.number == 0;
    put_answer(got, r.number, r.a, r.b);
    got.put(r.count as u64);
    for i in 0..rows {
        put_lent(
            got,
            answered,
            u64::from(now.masks[i]),
            u64::from(then.masks[i]),
        );
        put_lent(
            got,
            answered,
            u64::from(now.values[i]),
            u64::from(then.values[i]),
        );
        put_lent(
            got,
            answered,
            u64::from(now.words[i]),
            u64::from(then.words[i]),
        );
    }
}

// Joins the rows of a case.
fn join_of(n: usize, k: usize, numbers: &[u64], got: &mut Numbers) {
    let rows = ROWS.min(numbers.len() / 3);
    let then = lists_of(numbers);
    let mut now = then;
    let r = joining::join_rows(
        n,
        k,
        &mut now.masks[..rows],
        &mut now.values[..rows],
        &mut now.words[..rows],
    );
    put_joined(got, r, &now, &then, rows);
}

// Reads the sizes and the list of a case, joins its rows, and answers the place after the list.
pub fn run_join(text: &[u8], at: usize, got: &mut Numbers) -> usize
    requires { at ≤ length text.now }
    ensures { result ≤ length text.now }
{
    let n = read_word(text, at);
    let k = read_word(text, n.next);
    let mut numbers = Numbers::new();
    let next = read_numbers(text, k.next, b' ', &mut numbers);
    join_of(n.value as usize, k.value as usize, numbers.as_slice(), got);
    next
}
