// The exchange of two positions at a step (01, How rows are transformed): which position is exchanged with k, and a number after the exchange.
// Every function here is inner.
#![tactic(auto)]

ghost use Rattle.std.specs.Prelude.{◌≡◌, ◌≤◌, ◌<◌, ◌^◌};
ghost use Rattle.std.specs.Int.Bits.{bit_xor};
ghost use Rattle.block.specs.Limits.{list_inputs};
ghost use Rattle.block.specs.Rows.{highest, partner, exchange};

// The position of the highest one-bit of y below n, 0 where there is none.
pub fn highest_bit(n: usize, y: u32) -> usize
    requires { n ≤ list_inputs }
    ensures { result ≡ highest n y }
{
    for m in (0..n).rev() {
        if bit_work::bit_of(y, m) == 1 {
            return m;
        }
    }
    0
}

// The position that is exchanged with k, for the chosen number y in the coordinates reached.
#[tactic(auto, unfolding(block::specs::Rows::partner))]
pub fn partner_of(n: usize, k: usize, y: u32) -> usize
    requires { (k < n) × (n ≤ list_inputs) }
    ensures { result ≡ partner n k y }
{
    if bit_work::bit_of(y, k) == 1 {
        return k;
    }
    highest_bit(n, y)
}

// y with positions k and h exchanged.
#[tactic(auto, unfolding(block::specs::Rows::exchange))]
pub fn exchange_bits(k: usize, h: usize, y: u32) -> u32
    requires { (k < list_inputs) × (h < list_inputs) }
    ensures { result ≡ exchange k h y }
{
    let d = (bit_work::bit_of(y, k) + bit_work::bit_of(y, h)) % 2;
    bit_work::xor_where(y, bit_work::power(k) ^ bit_work::power(h), d)
}

// The chosen number y after the exchange with h, without bit k.
pub fn rest_of(k: usize, h: usize, y: u32) -> u32
    requires { (k < list_inputs) × (h < list_inputs) }
    ensures { result ≡ bit_xor (exchange k h y) (2 ^ k) }
{
    exchange_bits(k, h, y) ^ bit_work::power(k)
}
