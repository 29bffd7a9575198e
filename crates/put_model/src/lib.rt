// A whole model in BLIF (02, Ticket 4), put into a lent slice where it fits. All functions here are inner.
#![tactic(auto)]

ghost use Rattle.std.specs.Prelude.{◌≡◌, cond, ◌+◌, ◌≤◌, ◌<◌, ltb, length};
ghost use Rattle.slices.specs.Places.{over};
ghost use Rattle.block.specs.Model.{block_model};
ghost use Rattle.flat_rows.specs.Listing.{rows_from};
ghost use Rattle.put_names.specs.Fitting.{Fitted, reach};
ghost use Rattle.put_chains.specs.Rows.{Below};
ghost use Rattle.put_model.specs.Whole.{head_text};

// The first three lines.
pub fn emit_heads(out: &mut [u8], at: usize, n: usize, k: usize) -> usize
    requires { (at + 1000 ≤ reach) × (n < 100) × (k < 100) }
    ensures fitted { Fitted out.old at (head_text n k) out.new result }
    ensures upper_bound { result ≤ at + 1000 }
{
    let a = put_names::emit_bytes(out, at, b".model block\n.inputs");
    let b = put_names::emit_names(out, a, 120, n);
    let c = put_names::emit_bytes(out, b, b"\n.outputs");
    let d = put_names::emit_names(out, c, 121, k);
    put_names::emit(out, d, 10)
}

// The whole model at the front of out, stored where it fits; answers its length.
pub fn emit_model(
    out: &mut [u8],
    n: usize,
    k: usize,
    sigma: &[u32],
    p: usize,
    masks: &[u32],
    values: &[u32],
    words: &[u32],
) -> usize
    requires n_bound { (n < 100) × (k ≤ 15) × (p ≤ 512) × (n ≤ length sigma.now) × Below n sigma.now }
    requires p_in_bounds { (p ≤ length masks.now) × (p ≤ length values.now) × (p ≤ length words.now) }
    ensures { let rs = rows_from p masks.now values.now words.now in
        Fitted out.old 0 (block_model n k sigma.now rs) out.new result }
{
    let a = emit_heads(out, 0, n, k);
    let b = put_chains::emit_front(out, a, n, sigma);
    let c = put_outputs::emit_back(out, b, n, k, p, masks, values, words);
    put_names::emit_bytes(out, c, b".end\n")
}

// The whole model at the front of out where it fits, and else nothing; answers its length. It is put into no room first, which tells that.
pub fn put_model(
    out: &mut [u8],
    n: usize,
    k: usize,
    sigma: &[u32],
    p: usize,
    masks: &[u32],
    values: &[u32],
    words: &[u32],
) -> usize
    requires n_bound { (n < 100) × (k ≤ 15) × (p ≤ 512) × (n ≤ length sigma.now) × Below n sigma.now }
    requires p_in_bounds { (p ≤ length masks.now) × (p ≤ length values.now) × (p ≤ length words.now) }
    ensures result_value { let rs = rows_from p masks.now values.now words.now in
        result ≡ length (block_model n k sigma.now rs) }
    ensures out_after { let rs = rows_from p masks.now values.now words.now in
        let text = block_model n k sigma.now rs in
        out.new ≡ cond (ltb (length out.old) result) out.old (over text out.old) }
{
    let mut none = [0u8; 1];
    let need = emit_model(&mut none, n, k, sigma, p, masks, values, words);
    if out.len() < need {
        return need;
    }
    emit_model(out, n, k, sigma, p, masks, values, words)
}
