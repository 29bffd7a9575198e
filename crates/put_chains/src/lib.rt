// The covers of sigma in BLIF (02, Ticket 4): for each row a copy of its input, or a chain of XOR covers from its lowest input up, put
// into a lent slice where they fit (`Fitted` of put_names). A row's inputs are its binary digits, taken from the lowest up. All functions
// here are inner.
#![tactic(auto)]

ghost use Rattle.std.specs.Prelude.{◌≡◌, [], ◌∷◌, ◌+◌, ◌*◌, ◌^◌, ◌≤◌, ◌<◌, length, get_or};
ghost use Rattle.block.specs.Model.{copy_cover, xor_cover, row_covers, inputs_of, front_covers};
ghost use Rattle.put_names.specs.Fitting.{Fitted, reach};
ghost use Rattle.put_chains.specs.Texts.{cover_text};
ghost use Rattle.put_chains.specs.Links.{from_name, to_name, link_covers, digit_covers, lowest};
ghost use Rattle.put_chains.specs.Rows.{Below};

// What a chain with q inputs so far goes on from.
pub fn emit_from(out: &mut [u8], at: usize, i: usize, a: usize, q: usize) -> usize
    requires { (at + 6 ≤ reach) × (i < 100) × (a < 100) × (1 ≤ q) × (q < 100) }
    ensures fitted { Fitted out.old at (from_name i a q) out.new result }
    ensures upper_bound { result ≤ at + 6 }
{
    if q == 1 {
        return put_names::emit_name(out, at, 120, a);
    }
    put_names::emit_part(out, at, i, q - 1)
}

// What it defines with one input more.
pub fn emit_to(out: &mut [u8], at: usize, i: usize, q: usize, last: bool) -> usize
    requires { (at + 6 ≤ reach) × (i < 100) × (q < 100) }
    ensures fitted { Fitted out.old at (to_name i q last) out.new result }
    ensures upper_bound { result ≤ at + 6 }
{
    if last {
        return put_names::emit_name(out, at, 122, i);
    }
    put_names::emit_part(out, at, i, q)
}

// The XOR of the part so far and input b.
pub fn emit_xor(
    out: &mut [u8],
    at: usize,
    i: usize,
    a: usize,
    b: usize,
    q: usize,
    last: bool,
) -> usize
    requires { (at + 40 ≤ reach) × (i < 100) × (a < 100) × (b < 100) × (1 ≤ q) × (q < 100) }
    ensures fitted { Fitted out.old at (cover_text (xor_cover (from_name i a q) b (to_name i q last) ∷ [])) out.new result }
    ensures upper_bound { result ≤ at + 40 }
{
    let s = put_names::emit_bytes(out, at, b".names ");
    let t = emit_from(out, s, i, a, q);
    let u = put_names::emit(out, t, 32);
    let v = put_names::emit_name(out, u, 120, b);
    let w = put_names::emit(out, v, 32);
    let x = emit_to(out, w, i, q, last);
    put_names::emit_bytes(out, x, b"\n01 1\n10 1\n")
}

// A copy of input b.
pub fn emit_copy(out: &mut [u8], at: usize, b: usize, i: usize) -> usize
    requires { (at + 40 ≤ reach) × (i < 100) × (b < 100) }
    ensures fitted { Fitted out.old at (cover_text (copy_cover b i ∷ [])) out.new result }
    ensures upper_bound { result ≤ at + 40 }
{
    let s = put_names::emit_bytes(out, at, b".names ");
    let t = put_names::emit_name(out, s, 120, b);
    let u = put_names::emit(out, t, 32);
    let v = put_names::emit_name(out, u, 122, i);
    put_names::emit_bytes(out, v, b"\n1 1\n")
}

// The cover that input b brings to row i, where q inputs came before it and the lowest was a.
pub fn emit_link(
    out: &mut [u8],
    at: usize,
    i: usize,
    a: usize,
    b: usize,
    q: usize,
    last: bool,
) -> usize
    requires { (at + 40 ≤ reach) × (i < 100) × (a < 100) × (b < 100) × (q < 100) }
    ensures fitted { Fitted out.old at (cover_text (link_covers i a b q last)) out.new result }
    ensures upper_bound { result ≤ at + 40 }
{
    if q == 0 {
        if last {
            return emit_copy(out, at, b, i);
        }
        return at;
    }
    emit_xor(out, at, i, a, b, q, last)
}

// What the lowest digit of rest brings, as input b.
pub fn emit_digit(
    out: &mut [u8],
    at: usize,
    i: usize,
    a: usize,
    b: usize,
    q: usize,
    rest: usize,
) -> usize
    requires { (at + 40 ≤ reach) × (i < 100) × (a < 100) × (b < 100) × (q < 100) }
    ensures fitted { Fitted out.old at (cover_text (digit_covers i a b q rest)) out.new result }
    ensures upper_bound { result ≤ at + 40 }
{
    if rest % 2 == 0 {
        return at;
    }
    emit_link(out, at, i, a, b, q, rest / 2 == 0)
}

// The lowest input, with b one more.
pub fn lowest_of(a: usize, b: usize, q: usize) -> usize
    requires { (a < 100) × (b < 100) }
    ensures value { result ≡ lowest a b q }
    ensures upper_bound { result < 100 }
{
    if q == 0 {
        return b;
    }
    a
}

// The covers of row i of sigma.
pub fn emit_row(out: &mut [u8], at: usize, n: usize, i: usize, v: usize) -> usize
    requires { (at + n * 40 ≤ reach) × (n < 100) × (i < 100) × (v < 2 ^ n) }
    ensures fitted { Fitted out.old at (cover_text (row_covers i (inputs_of n v))) out.new result }
    ensures upper_bound { result ≤ at + n * 40 }
{
    let mut to = at;
    let mut a = 0;
    let mut q = 0;
    let mut rest = v;
    for b in 0..n {
        to = emit_digit(out, to, i, a, b, q, rest);
        a = lowest_of(a, b, q);
        q += rest % 2;
        rest /= 2;
    }
    to
}

// The covers of the n rows of sigma.
pub fn emit_front(out: &mut [u8], at: usize, n: usize, sigma: &[u32]) -> usize
    requires { (at + n * 4000 ≤ reach) × (n < 100) × (n ≤ length sigma.now) × Below n sigma.now }
    ensures fitted { Fitted out.old at (cover_text (front_covers n (λ j. get_or sigma.now j 0) n)) out.new result }
    ensures upper_bound { result ≤ at + n * 4000 }
{
    let mut to = at;
    for i in 0..n {
        to = emit_row(out, to, n, i, sigma[i] as usize);
    }
    to
}
