// The names of a model (02, Ticket 4), compared by place. Each function answers the place after the bytes that are due where they stand,
// and else LOST, a place that no text reaches; from LOST on nothing stands, so that functions are called one after the other and only the
// last place is looked at. `read_line` alone answers a result, as those above this crate do: the place after the line, or as the error
// the place of the first line that is not of the form due. All functions here are inner.
#![tactic(auto)]

ghost use Rattle.std.specs.Prelude.{◌≡◌, [], ◌∷◌, ◌≤◌, ◌<◌, true};
ghost use Rattle.slices.specs.Places.{tab};
ghost use Rattle.block.specs.Text.{decimal};
ghost use Rattle.block.specs.Model.{part_name, spaced};
ghost use Rattle.block.specs.ModelRead.{State, Due};
ghost use Rattle.model_laws.specs.Spaced.{lettered};
ghost use Rattle.model_laws.specs.WordLines.{is_line};
ghost use Rattle.read_names.specs.Met.{met_at};
ghost use Rattle.read_names.specs.Fate.{Came};

pub const LOST: usize = usize::MAX;

// One byte.
pub fn meet_byte(text: &[u8], at: usize, b: u8) -> usize
    ensures { result ≡ met_at text.now at (b ∷ []) }
{
    if at < text.len() && text[at] == b {
        at + 1
    } else {
        LOST
    }
}

// The bytes of s.
pub fn meet_bytes(text: &[u8], at: usize, s: &[u8]) -> usize
    ensures { result ≡ met_at text.now at s.now }
{
    let mut to = at;
    for b in s {
        to = meet_byte(text, to, *b);
    }
    to
}

// A number of one or two digits.
pub fn meet_number(text: &[u8], at: usize, v: usize) -> usize
    requires { v < 100 }
    ensures { result ≡ met_at text.now at (decimal v) }
{
    if v < 10 {
        return meet_byte(text, at, (48 + v) as u8);
    }
    let to = meet_byte(text, at, (48 + v / 10) as u8);
    meet_byte(text, to, (48 + v % 10) as u8)
}

// A letter and a number.
pub fn meet_name(text: &[u8], at: usize, letter: u8, v: usize) -> usize
    requires { v < 100 }
    ensures { result ≡ met_at text.now at (lettered letter v) }
{
    let to = meet_byte(text, at, letter);
    meet_number(text, to, v)
}

// The name of part p of row i.
pub fn meet_part(text: &[u8], at: usize, i: usize, p: usize) -> usize
    requires { (i < 100) × (p < 100) }
    ensures { result ≡ met_at text.now at (part_name i p) }
{
    let name = meet_name(text, at, 122, i);
    let dash = meet_byte(text, name, 95);
    meet_number(text, dash, p)
}

// The first n names of a letter, each after a space.
pub fn meet_names(text: &[u8], at: usize, letter: u8, n: usize) -> usize
    requires { n ≤ 100 }
    ensures { result ≡ met_at text.now at (spaced (tab n (lettered letter))) }
{
    let mut to = at;
    for i in 0..n {
        let gap = meet_byte(text, to, 32);
        to = meet_name(text, gap, letter, i);
    }
    to
}

// One line that is due, whatever is due after it.
pub fn read_line(text: &[u8], at: usize, line: &[u8]) -> Result<usize, usize>
    requires { is_line line.now ≡ true }
    ensures { (s : State) → Came text.now (Due line.now s) at s result }
{
    let to = meet_bytes(text, at, line);
    if to == LOST {
        return Err(at);
    }
    Ok(to)
}
