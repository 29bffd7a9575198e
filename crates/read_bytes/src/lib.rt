// The first bytes of a text; bytes and decimal numbers, read by place. All functions here are inner.
#![tactic(auto)]

ghost use Rattle.std.specs.Prelude.{◌≡◌, ◌+◌, ◌≤◌, ◌<◌, take};
ghost use Rattle.slices.specs.Places.{at};
ghost use Rattle.block.specs.Text.{is_digit};
ghost use Rattle.read_laws.specs.ByPlace.{farthest, longest, ended_of, number_at, width_of};

// The first bytes of a text, at most so many.
pub fn first_bytes(text: &[u8], most: usize) -> &[u8]
    ensures { result.now ≡ take most text.now }
{
    &text[..most.min(text.len())]
}

// The byte at a place, or 0 past the end: no byte of the form is 0.
pub fn byte(s: &[u8], from: usize) -> usize
    ensures value { result ≡ at s.now from }
    ensures upper_bound { result < 256 }
{
    if from < s.len() { s[from] as usize } else { 0 }
}

// Whether a byte is a decimal digit.
pub fn is_digit(b: usize) -> bool
    ensures { result ≡ is_digit b }
{
    48 <= b && b <= 57
}

// A number of `count` digits that spell v, of which the first is `lead`, before the byte `last`. None is without a digit or without LF,
// and none of two digits or more has a leading zero. With the number comes how many bytes it takes, its LF among them.
#[tactic(auto, unfolding(read_laws::specs::ByPlace::ended_of))]
pub fn ended(count: usize, v: usize, lead: usize, last: usize) -> Option<(usize, usize)>
    requires { count < farthest }
    ensures value { result ≡ ended_of count v lead last }
    ensures result_bound { width_of result ≤ count + 1 }
{
    if last != 10 {
        return None;
    }
    if count == 0 {
        return None;
    }
    if count == 1 {
        return Some((v, 2));
    }
    if lead == 48 {
        return None;
    }
    Some((v, count + 1))
}

// The number of 1 to `most` digits from a place on, ended by LF, and how many bytes they take.
pub fn number_at(s: &[u8], from: usize, most: usize) -> Option<(usize, usize)>
    requires { (from < farthest) × (most ≤ longest) }
    ensures value { result ≡ number_at s.now from most }
    ensures result_bound { width_of result ≤ most + 1 }
{
    let lead = byte(s, from);
    let mut v = 0;
    for count in 0..most {
        let b = byte(s, from + count);
        if !is_digit(b) {
            return ended(count, v, lead, b);
        }
        v = v * 10 + (b - 48);
    }
    ended(most, v, lead, byte(s, from + most))
}
