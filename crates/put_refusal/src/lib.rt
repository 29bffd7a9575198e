// The lines that the programs print beside sheets: a word and three numbers, as "refused N A B". All functions here are inner: the
// function that prints is `print_text` of the crate printing.
#![tactic(auto)]

ghost use Rattle.std.specs.Prelude.{◌+◌, ◌≤◌, length};
ghost use Rattle.block.specs.Refusals.{answer};
ghost use Rattle.block.specs.Sheet.{refusal_line};
ghost use Rattle.put_bytes.specs.Puts.{Put};
ghost use Rattle.put_refusal.specs.Words.{three};

// Puts a word and three numbers after it.
pub fn put_three(out: &mut [u8], at: usize, word: &[u8], x: usize, y: usize, z: usize) -> usize
    requires { at + length (three word.now x y z) ≤ length out.old }
    ensures { Put out.old at (three word.now x y z) out.new result }
{
    let c = put_bytes::put_bytes(out, at, word);
    let d = put_bytes::put_decimal(out, c, x);
    let e = put_bytes::put_byte(out, d, 32);
    let f = put_bytes::put_decimal(out, e, y);
    let g = put_bytes::put_byte(out, f, 32);
    put_bytes::put_decimal(out, g, z)
}

// Puts the line of a refusal at the front.
#[tactic(auto, unfolding(block::specs::Sheet::refusal_line))]
pub fn put_refusal(out: &mut [u8], number: u32, a: usize, b: usize) -> usize
    requires { length (refusal_line (answer number a b)) ≤ length out.old }
    ensures { Put out.old 0 (refusal_line (answer number a b)) out.new result }
{
    let c = put_three(out, 0, b"refused ", number as usize, a, b);
    put_bytes::put_byte(out, c, 10)
}
