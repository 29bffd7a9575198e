// The headings of row text, read by place: ".i n", ".o k", the type line where it stands, ".p rows", each ended by LF, and then their
// ranges. All functions here are inner: the operation is `read_text` of the crate reading.
#![tactic(auto)]

ghost use Rattle.std.specs.Prelude.{◌≡◌, Err, ◌+◌, ◌≤◌, ◌<◌, length};
ghost use Rattle.block.specs.Text.{head_digits};
ghost use Rattle.read_laws.specs.ByPlace.{farthest, width_of, lead_of, head_at, refusal, stands_at, typed, type_at, type_bytes, ranged_of, OpenWithin, counted_of, opening_of};

use block::{FD, FR, GIVEN_ROWS, Headings, Kind, LIST_INPUTS, OUTPUTS, Refusal};
use read_laws::{HEAD_DIGITS, TYPE_BYTES, TypeLine};

// A line whose first three bytes are a, b and c, before a number: the number, and how many bytes the line takes.
#[tactic(auto, unfolding(read_laws::specs::ByPlace::lead_of))]
pub fn lead(
    a: usize,
    b: usize,
    c: usize,
    letter: usize,
    number: Option<(usize, usize)>,
) -> Option<(usize, usize)>
    requires { width_of number ≤ head_digits + 1 }
    ensures value { result ≡ lead_of a b c letter number }
    ensures result_bound { width_of result ≤ head_digits + 4 }
{
    if a != 46 {
        return None;
    }
    if b != letter {
        return None;
    }
    if c != 32 {
        return None;
    }
    let (v, size) = number?;
    Some((v, size + 3))
}

// The heading from a place on.
#[tactic(auto, unfolding(read_laws::specs::ByPlace::head_at))]
pub fn head_at(s: &[u8], from: usize, letter: usize) -> Option<(usize, usize)>
    requires { from + 3 < farthest }
    ensures value { result ≡ head_at s.now from letter }
    ensures result_bound { width_of result ≤ head_digits + 4 }
{
    let a = read_bytes::byte(s, from);
    let b = read_bytes::byte(s, from + 1);
    let c = read_bytes::byte(s, from + 2);
    let number = read_bytes::number_at(s, from + 3, HEAD_DIGITS);
    lead(a, b, c, letter, number)
}

// A refusal before any row.
pub fn stop(kind: Kind, a: usize) -> Result<(Headings, usize), Refusal>
    ensures { result ≡ Err (refusal kind a) }
{
    Err(Refusal { kind, a, b: 0 })
}

// Whether a line stands from a place on.
pub fn stands_at(s: &[u8], from: usize, line: &[u8]) -> bool
    requires { from + length line.now < farthest }
    ensures { result ≡ stands_at s.now from line.now }
{
    for (i, b) in line.iter().enumerate() {
        if read_bytes::byte(s, from + i) != usize::from(*b) {
            return false;
        }
    }
    true
}

// A type, and whether its line stands there.
pub fn typed_as(block_type: usize, type_line: usize) -> TypeLine
    ensures { result ≡ typed block_type type_line }
{
    TypeLine {
        block_type,
        type_line,
    }
}

// The type line from a place on: the type that it says, or type fd where none stands there.
#[tactic(auto, unfolding(read_laws::specs::ByPlace::type_at))]
pub fn type_at(s: &[u8], from: usize) -> TypeLine
    requires { from + type_bytes < farthest }
    ensures value { result ≡ type_at s.now from }
    ensures type_line_bound { result.type_line ≤ 1 }
{
    if stands_at(s, from, b".type fr\n") {
        return typed_as(FR, 1);
    }
    if stands_at(s, from, b".type fd\n") {
        return typed_as(FD, 1);
    }
    typed_as(FD, 0)
}

// The ranges of n, k and the number of rows, and the room.
#[tactic(auto, unfolding(read_laws::specs::ByPlace::ranged_of))]
pub fn ranged(h: Headings, from: usize, room: usize) -> Result<(Headings, usize), Refusal>
    requires { h.type_line ≤ 1 }
    ensures value { result ≡ ranged_of h from room }
    ensures open_within { OpenWithin result room }
{
    if shared_checks::is_outside(1, LIST_INPUTS, h.n) {
        return stop(Kind::Inputs, 0);
    }
    if shared_checks::is_outside(1, OUTPUTS, h.k) {
        return stop(Kind::Outputs, 0);
    }
    if shared_checks::is_outside(1, GIVEN_ROWS, h.count) {
        return stop(Kind::Count, 0);
    }
    if room < h.count {
        return stop(Kind::Room, 0);
    }
    Ok((h, from))
}

// ".p rows" behind the type line, where that stands from the place on, and then the ranges. A .p that lacks its form is answered on its
// own line.
#[tactic(auto, unfolding(read_laws::specs::ByPlace::counted_of))]
pub fn counted(
    s: &[u8],
    n: usize,
    k: usize,
    from: usize,
    t: TypeLine,
    room: usize,
) -> Result<(Headings, usize), Refusal>
    requires { (from + type_bytes + 3 < farthest) × (t.type_line ≤ 1) }
    ensures value { result ≡ counted_of s.now n k from t room }
    ensures open_within { OpenWithin result room }
{
    let place = from + t.type_line * TYPE_BYTES;
    let Some((p, size)) = head_at(s, place, 112) else {
        return stop(Kind::Form, 3 + t.type_line);
    };
    let h = Headings {
        n,
        k,
        block_type: t.block_type,
        type_line: t.type_line,
        count: p,
    };
    ranged(h, place + size, room)
}

// The headings and the place after them, or why the text is refused before any row: their form first, then their ranges.
#[tactic(auto, unfolding(read_laws::specs::ByPlace::opening_of))]
pub fn read_headings(s: &[u8], room: usize) -> Result<(Headings, usize), Refusal>
    ensures value { result ≡ opening_of s.now room }
    ensures open_within { OpenWithin result room }
{
    let Some((n, first)) = head_at(s, 0, 105) else {
        return stop(Kind::Form, 1);
    };
    let Some((k, second)) = head_at(s, first, 111) else {
        return stop(Kind::Form, 2);
    };
    let t = type_at(s, first + second);
    counted(s, n, k, first + second, t, room)
}
