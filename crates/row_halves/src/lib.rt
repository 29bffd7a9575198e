// What a step does to one row (01, How rows are transformed): whether it falls into two halves, its halves, and its flips. Every function
// here is inner.
#![tactic(auto)]

ghost use Rattle.std.specs.Prelude.{◌≡◌, ◌<◌};
ghost use Rattle.block.specs.Limits.{list_inputs};
ghost use Rattle.block.specs.Rows.{flip_row, half};
ghost use Rattle.row_halves.specs.Halves.{splits};

use block::Row;

// Whether a row with this mask falls into two halves: free at k, and fixed somewhere that v has a one.
#[tactic(auto, unfolding(crate::specs::Halves::splits))]
pub fn is_split(k: usize, v: u32, mask: u32) -> bool
    requires { k < list_inputs }
    ensures { result ≡ splits k v mask }
{
    bit_work::bit_of(mask, k) != 1 && mask & v != 0
}

// A row after the flips of v: where it has 1 at k, each fixed symbol is flipped where v has a one.
pub fn flip_row(k: usize, v: u32, r: Row) -> Row
    requires { k < list_inputs }
    ensures { result ≡ flip_row k v r }
{
    let d = bit_work::bit_of(r.values, k);
    Row {
        mask: r.mask,
        values: bit_work::xor_where(r.values, r.mask & v, d),
        word: r.word,
    }
}

// The half of a row, free at k, that has d there.
pub fn half_row(k: usize, d: u32, r: Row) -> Row
    requires { (k < list_inputs) × (d < 2) }
    ensures { result ≡ half k d r }
{
    let place = bit_work::power(k);
    Row {
        mask: r.mask ^ place,
        values: bit_work::xor_where(r.values, place, d),
        word: r.word,
    }
}

// The half of a row, free at k, that has d there, after the flips of v.
pub fn flipped_half(k: usize, v: u32, d: u32, r: Row) -> Row
    requires { (k < list_inputs) × (d < 2) }
    ensures { result ≡ flip_row k v (half k d r) }
{
    let h = half_row(k, d, r);
    flip_row(k, v, h)
}
