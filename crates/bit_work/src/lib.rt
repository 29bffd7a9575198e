// Small steps on numbers that the inner loops share: powers of two, parities, single bits, and an XOR that a digit switches.
// Every function here is inner: callers meet what it requires.
#![tactic(auto)]

ghost use Rattle.std.specs.Prelude.{◌≡◌, ◌<◌, ◌^◌, ◌*◌};
ghost use Rattle.std.specs.Int.Bits.{bit_xor};
ghost use Rattle.bits.specs.Digits.{bit, parity};

// 2 to the power k.
pub fn power(k: usize) -> u32
    requires { k < 32 }
    ensures { result ≡ 2 ^ k }
{
    1 << k
}

// The same as a size.
pub fn size(k: usize) -> usize
    requires { k < 64 }
    ensures { result ≡ 2 ^ k }
{
    1 << k
}

// 1 where a has an odd number of one-bits, and else 0.
#[tactic(auto, unfolding(bits::specs::Digits::parity))]
pub fn parity_of(a: u32) -> u32
    ensures { result ≡ parity a }
{
    a.count_ones() % 2
}

// Bit j of a.
pub fn bit_of(a: u32, j: usize) -> u32
    requires { j < 32 }
    ensures { result ≡ bit a j }
{
    (a >> j) % 2
}

// a XOR b where d is 1, and a where d is 0.
pub fn xor_where(a: u32, b: u32, d: u32) -> u32
    requires { d < 2 }
    ensures { result ≡ bit_xor a (b * d) }
{
    if d == 0 { a } else { a ^ b }
}
