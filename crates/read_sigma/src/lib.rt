// The matrix of a model, read by place row by row: a row is a copy of an input, or a chain. A row that is read is its number and the place
// after its covers; an error is the place of the first line that is not of the form due. All functions here are inner.
#![tactic(auto)]

ghost use Rattle.std.specs.Prelude.{◌≡◌, [], ◌∷◌, ◌≤◌, ◌<◌, ◌+◌, set};
ghost use Rattle.slices.specs.Places.{first};
ghost use Rattle.block.specs.Limits.{list_inputs};
ghost use Rattle.block.specs.Model.{cube_line};
ghost use Rattle.block.specs.ModelRead.{State, Due, RowDue};
ghost use Rattle.read_chains.specs.Chains.{Chained, Ended};
ghost use Rattle.read_sigma.specs.Rows.{copy_at, chain_at, Rows};

// The first input whose copy defines row i on the line after ".names", or n.
pub fn copy_input(text: &[u8], at: usize, n: usize, i: usize) -> usize
    requires { (n ≤ list_inputs) × (i < 100) }
    ensures { result ≡ first n (copy_at text.now at i) }
{
    for a in 0..n {
        if read_chains::meet_last(text, at, a, i) != read_names::LOST {
            return a;
        }
    }
    n
}

// The first input with which a chain of row i begins there, or n.
pub fn chain_input(text: &[u8], at: usize, n: usize, i: usize) -> usize
    requires { (n ≤ list_inputs) × (i < 100) }
    ensures { result ≡ first n (chain_at text.now at n i) }
{
    for a in 0..n {
        let met = read_chains::meet_input(text, at, a);
        if read_chains::link_input(text, met, n, bit_work::power(a), i, 1) < n {
            return a;
        }
    }
    n
}

// The line that ends a copy.
pub fn end_copy(text: &[u8], at: usize, input: u32) -> Result<(u32, usize), usize>
    ensures { (s : State) → Ended text.now (Due (cube_line (49 ∷ [])) s) at s input result }
{
    let next = read_names::read_line(text, at, b"1 1\n")?;
    Ok((input, next))
}

// Row i of sigma.
pub fn read_row(text: &[u8], at: usize, n: usize, i: usize) -> Result<(u32, usize), usize>
    requires { (n ≤ list_inputs) × (i < 100) }
    ensures { Chained text.now n i (λ k rs. RowDue n k rs) at result }
{
    let begun = read_names::meet_bytes(text, at, b".names");
    let copy = copy_input(text, begun, n, i);
    if copy < n {
        let to = read_chains::meet_last(text, begun, copy, i);
        return end_copy(text, to, bit_work::power(copy));
    }
    let a = chain_input(text, begun, n, i);
    if n <= a {
        return Err(at);
    }
    let met = read_chains::meet_input(text, begun, a);
    read_chains::read_chain(text, at, met, n, i, bit_work::power(a))
}

// Stores a number where it fits.
pub fn store(out: &mut [u32], at: usize, v: u32)
    ensures { out.new ≡ set out.old at v }
{
    if at < out.len() {
        out[at] = v;
    }
}

// All n rows, stored where they fit.
pub fn read_rows(text: &[u8], at: usize, n: usize, sigma: &mut [u32]) -> Result<usize, usize>
    requires { (1 ≤ n) × (n ≤ list_inputs) }
    ensures { Rows text.now n at sigma.old sigma.new result }
{
    let mut to = at;
    for i in 0..n {
        let (row, next) = read_row(text, to, n, i)?;
        store(sigma, i, row);
        to = next;
    }
    Ok(to)
}
