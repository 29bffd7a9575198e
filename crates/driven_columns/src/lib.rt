// The search for an output that no row drives (02, Ticket 8, 11), by the words of the rows. Every function here is inner.
#![tactic(auto)]

ghost use Rattle.std.specs.Prelude.{◌≡◌, [], ◌∷◌, ◌≤◌};
ghost use Rattle.block.specs.Limits.{outputs};
ghost use Rattle.block.specs.Refusals.{verdict, and_then, undriven};
ghost use Rattle.block.specs.Lists.{undriven_check};
ghost use Rattle.driven_columns.specs.Columns.{Gathered};

use block::Answer;

// The columns in which some word has a 1: their OR.
pub fn driven_in(words: &[u32]) -> u32
    ensures { Gathered words.now result }
{
    let mut all: u32 = 0;
    for word in words {
        all |= *word;
    }
    all
}

// The lowest of k columns that is 0 in every word; k where there is none.
pub fn undriven_in(k: usize, words: &[u32]) -> usize
    requires { k ≤ outputs }
    ensures { result ≡ undriven k words.now }
{
    let all = driven_in(words);
    for j in 0..k {
        if bit_work::bit_of(all, j) == 0 {
            return j;
        }
    }
    k
}

// 11 after an earlier answer: a refusal is handed on, and no column is looked for.
pub fn then_driven(v: Answer, k: usize, words: &[u32]) -> Answer
    requires { v.number ≡ 0 → k ≤ outputs }
    ensures { result ≡ and_then v (verdict (undriven_check k words.now ∷ [])) }
{
    if v.number != 0 {
        return v;
    }
    let j = undriven_in(k, words);
    shared_checks::refuse_where(j < k, 11, j, 0)
}
