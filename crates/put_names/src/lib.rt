// The small pieces of a model in BLIF (02, Ticket 4), put into a lent slice at a place: bytes, numbers, and names. A piece that would pass
// the slice's end is not stored, and the place after it is answered all the same: so a model put into no room tells its length, and one put
// into that much room is stored whole. The one contract `Fitted` says so, and its law `next` joins two pieces into one. All functions here
// are inner.
#![tactic(auto)]

ghost use Rattle.std.specs.Prelude.{◌≡◌, [], ◌∷◌, ◌+◌, ◌*◌, ◌≤◌, ◌<◌, length};
ghost use Rattle.slices.specs.Places.{tab};
ghost use Rattle.block.specs.Text.{decimal};
ghost use Rattle.block.specs.Model.{part_name, spaced};
ghost use Rattle.put_names.specs.Fitting.{Fitted, reach};
ghost use Rattle.model_laws.specs.Spaced.{lettered};

// One byte.
pub fn emit(out: &mut [u8], at: usize, b: u8) -> usize
    requires { at + 1 ≤ reach }
    ensures fitted { Fitted out.old at (b ∷ []) out.new result }
    ensures value { result ≡ at + 1 }
{
    if at < out.len() {
        return put_bytes::put_byte(out, at, b);
    }
    at + 1
}

// The bytes of s.
pub fn emit_bytes(out: &mut [u8], at: usize, s: &[u8]) -> usize
    requires { at + length s.now ≤ reach }
    ensures fitted { Fitted out.old at s.now out.new result }
    ensures value { result ≡ at + length s.now }
{
    let end = at + s.len();
    if end <= out.len() {
        return put_bytes::put_bytes(out, at, s);
    }
    end
}

// A number of one or two digits.
pub fn emit_number(out: &mut [u8], at: usize, v: usize) -> usize
    requires { (at + 2 ≤ reach) × (v < 100) }
    ensures fitted { Fitted out.old at (decimal v) out.new result }
    ensures upper_bound { result ≤ at + 2 }
{
    let end = at + put_bytes::places(v);
    if end <= out.len() {
        return put_bytes::put_decimal(out, at, v);
    }
    end
}

// A letter and a number.
pub fn emit_name(out: &mut [u8], at: usize, letter: u8, v: usize) -> usize
    requires { (at + 3 ≤ reach) × (v < 100) }
    ensures fitted { Fitted out.old at (lettered letter v) out.new result }
    ensures upper_bound { result ≤ at + 3 }
{
    let a = emit(out, at, letter);
    emit_number(out, a, v)
}

// The name of part p of row i.
pub fn emit_part(out: &mut [u8], at: usize, i: usize, p: usize) -> usize
    requires { (at + 6 ≤ reach) × (i < 100) × (p < 100) }
    ensures fitted { Fitted out.old at (part_name i p) out.new result }
    ensures upper_bound { result ≤ at + 6 }
{
    let a = emit_name(out, at, 122, i);
    let b = emit(out, a, 95);
    emit_number(out, b, p)
}

// The first n names of a letter, each after a space.
pub fn emit_names(out: &mut [u8], at: usize, letter: u8, n: usize) -> usize
    requires { (at + n * 4 ≤ reach) × (n ≤ 100) }
    ensures fitted { Fitted out.old at (spaced (tab n (lettered letter))) out.new result }
    ensures upper_bound { result ≤ at + n * 4 }
{
    let mut to = at;
    for i in 0..n {
        to = emit(out, to, 32);
        to = emit_name(out, to, letter, i);
    }
    to
}
