// Cases of disjoining (02, Ticket 10), run as `disjoin n k ROOM ROWS => N A B COUNT ROWS` says: crate case_lines has the form of such a line. Every
// function here is inner: the program run_operations calls them.
#![tactic(auto)]

ghost use Rattle.std.specs.Prelude.{◌≤◌, length};

use case_lines::{HELD, Numbers, ROWS, every, put_answer, put_rows, read_numbers, read_word};
use saying::{part, room};

// Disjoins the rows of a case: number, A, B and the count; then the disjoint rows, and any record beyond them that does not hold what it held.
fn disjoin_of(n: usize, k: usize, most: usize, numbers: &[u64], got: &mut Numbers) {
    let rows = numbers.len() / 3;
    let masks = every(numbers, 0, 3);
    let values = every(numbers, 1, 3);
    let words = every(numbers, 2, 3);
    let mut new_masks = [HELD; ROWS];
    let mut new_values = [HELD; ROWS];
    let mut new_words = [HELD; ROWS];
    let r = disjoining::disjoin_rows(
        n,
        k,
        part(&masks, rows),
        part(&values, rows),
        part(&words, rows),
        room(&mut new_masks, most),
        room(&mut new_values, most),
        room(&mut new_words, most),
    );
    put_answer(got, r.number, r.a, r.b);
    got.put(r.count as u64);
    put_rows(got, &new_masks, &new_values, &new_words, r.count);
}

// Reads the sizes, the room and the list of a case, disjoins its rows, and answers the place after the list.
pub fn run_disjoin(text: &[u8], at: usize, got: &mut Numbers) -> usize
    requires { at ≤ length text.now }
    ensures { result ≤ length text.now }
{
    let n = read_word(text, at);
    let k = read_word(text, n.next);
    let most = read_word(text, k.next);
    let mut numbers = Numbers::new();
    let next = read_numbers(text, most.next, b' ', &mut numbers);
    disjoin_of(
        n.value as usize,
        k.value as usize,
        most.value as usize,
        numbers.as_slice(),
        got,
    );
    next
}
