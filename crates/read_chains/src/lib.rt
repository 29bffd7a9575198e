// A row of sigma that is a chain of XOR covers from its lowest input up, read by place from a model. Every line that may
// stand at a place is tried, in the order of the inputs, and left at its first wrong byte. A row that is read is its number and the place
// after its covers; an error is the place of the first line that is not of the form due. All functions here are inner.
#![tactic(auto)]

ghost use Rattle.std.specs.Prelude.{◌≡◌, List, ◌∷◌, ℕ, ◌≤◌, ◌<◌, ◌^◌, ◌+◌};
ghost use Rattle.slices.specs.Places.{first};
ghost use Rattle.block.specs.Limits.{list_inputs};
ghost use Rattle.block.specs.Model.{x_name, z_name, part_name};
ghost use Rattle.block.specs.ModelRead.{State, xor_due};
ghost use Rattle.read_names.specs.Met.{met_at};
ghost use Rattle.read_names.specs.Fate.{Came};
ghost use Rattle.read_chains.specs.Chains.{tail, opening, linked_at, link_of, Grown, Chaining, Chained, Ended};

use read_names::LOST;

// A chain's next cover: none stands there; it ends the row; or it has a part. With the row's inputs so far as a number, and the place after
// its line.
#[derive(Clone, Copy)]
pub enum Link {
    None,
    Last(u32, usize),
    Part(u32, usize),
}

// An input's name, after a space.
pub fn meet_input(text: &[u8], at: usize, b: usize) -> usize
    requires { b < 100 }
    ensures { result ≡ met_at text.now at (32 ∷ x_name b) }
{
    let gap = read_names::meet_byte(text, at, 32);
    read_names::meet_name(text, gap, 120, b)
}

// The end of a line that defines row i.
pub fn meet_last(text: &[u8], at: usize, b: usize, i: usize) -> usize
    requires { (b < 100) × (i < 100) }
    ensures { result ≡ met_at text.now at (tail b (z_name i)) }
{
    let input = meet_input(text, at, b);
    let gap = read_names::meet_byte(text, input, 32);
    let name = read_names::meet_name(text, gap, 122, i);
    read_names::meet_byte(text, name, 10)
}

// The end of a line that defines part p of row i.
pub fn meet_more(text: &[u8], at: usize, b: usize, i: usize, p: usize) -> usize
    requires { (b < 100) × (i < 100) × (p < 100) }
    ensures { result ≡ met_at text.now at (tail b (part_name i p)) }
{
    let input = meet_input(text, at, b);
    let gap = read_names::meet_byte(text, input, 32);
    let name = read_names::meet_part(text, gap, i, p);
    read_names::meet_byte(text, name, 10)
}

// Whether a cover's line goes on with input b.
pub fn linked(text: &[u8], at: usize, n: usize, m: u32, i: usize, p: usize, b: usize) -> bool
    requires { (b < n) × (n ≤ list_inputs) × (i < 100) × (p < 100) }
    ensures { result ≡ linked_at text.now at n m i p b }
{
    if bit_work::power(b) <= m {
        return false;
    }
    if meet_last(text, at, b, i) != LOST {
        return true;
    }
    if n <= b + 1 {
        return false;
    }
    meet_more(text, at, b, i, p) != LOST
}

// The first input that a cover's line goes on with, or n.
pub fn link_input(text: &[u8], at: usize, n: usize, m: u32, i: usize, p: usize) -> usize
    requires { (n ≤ list_inputs) × (i < 100) × (p < 100) }
    ensures { result ≡ first n (linked_at text.now at n m i p) }
{
    for b in 0..n {
        if linked(text, at, n, m, i, p, b) {
            return b;
        }
    }
    n
}

// What a cover's line says after its first name.
pub fn read_link(text: &[u8], at: usize, n: usize, m: u32, i: usize, p: usize) -> Link
    requires { (n ≤ list_inputs) × (m < 2 ^ n) × (i < 100) × (p < 100) }
    ensures value { result ≡ link_of text.now at n m i p }
    ensures grown { Grown n m result }
{
    let b = link_input(text, at, n, m, i, p);
    if n <= b {
        return Link::None;
    }
    let inputs = m + bit_work::power(b);
    let last = meet_last(text, at, b, i);
    if last != LOST {
        return Link::Last(inputs, last);
    }
    Link::Part(inputs, meet_more(text, at, b, i, p))
}

// The two lines of an XOR.
pub fn read_xor(text: &[u8], at: usize) -> Result<usize, usize>
    ensures { (s : State) → Came text.now (xor_due s) at s result }
{
    let next = read_names::read_line(text, at, b"01 1\n")?;
    read_names::read_line(text, next, b"10 1\n")
}

// The lines that end a row with these inputs.
pub fn end_row(text: &[u8], at: usize, inputs: u32) -> Result<(u32, usize), usize>
    ensures { (s : State) → Ended text.now (xor_due s) at s inputs result }
{
    let next = read_xor(text, at)?;
    Ok((inputs, next))
}

// The beginning of the cover after part p of row i.
pub fn meet_so_far(text: &[u8], at: usize, i: usize, p: usize) -> usize
    requires { (i < 100) × (p < 100) }
    ensures { result ≡ met_at text.now at (opening (part_name i p)) }
{
    let word = read_names::meet_bytes(text, at, b".names ");
    read_names::meet_part(text, word, i, p)
}

// The chain of row i, from the place of a line whose first name was met: `met` is the place after it, and `inputs` its input as a number.
pub fn read_chain(
    text: &[u8],
    at: usize,
    met: usize,
    n: usize,
    i: usize,
    inputs: u32,
) -> Result<(u32, usize), usize>
    requires { (n ≤ list_inputs) × (inputs < 2 ^ n) × (1 ≤ inputs) × (i < 100) }
    ensures { (st : ℕ → List ℕ → State) → Chaining text.now n i inputs 1 at met st
        → Chained text.now n i st at result }
{
    let mut from = at;
    let mut begun = met;
    let mut m = inputs;
    let mut part = 1;
    // A loop: how many covers a chain has, the lines say.
    loop {
        match read_link(text, begun, n, m, i, part) {
            Link::None => return Err(from),
            Link::Last(all, to) => return end_row(text, to, all),
            Link::Part(more, to) => {
                let next = read_xor(text, to)?;
                from = next;
                begun = meet_so_far(text, next, i, part);
                m = more;
                part += 1;
            }
        }
    }
}
