// What the calls for C promise, and demand 3 of them; and the head and the grid steps that their caller lends. A crate of its own below `film_c`,
// `film_c_steps`, `film_c_form` and `film_c_coefficients`, so that an edit of what is promised does not check the exported functions anew. Internal: these use it.
//
// specs/Lent has the promises that stand in their `ensures`, beside those of crates `told`, `tell` and `tell_files`. proofs/Demand leads from
// them to the records that demand 3 is stated of (crate `model`: Session, Demand): it holds of every list of `film_run` and `film_propose`.
#![tactic(auto)]

ghost use Rattle.std.specs.Prelude.{◌≡◌};
ghost use Rattle.archive.specs.Lent.{lent_head, lent_steps};

use model::{Factors, Head};

// The head that a caller lends: rows, columns, ceiling. In C it is `film_head`, a struct of these numbers alone, which is laid out as the array.
pub fn head_of(head: &[u32; 3]) -> Head
    ensures { result ≡ lent_head head.now }
{
    Head {
        rows: head[0],
        columns: head[1],
        ceiling: head[2],
    }
}

// The grid steps that a caller lends: whether the film has a field for them, along, across. Where it has none, the two are not looked at. In C they
// are `film_steps`.
pub fn steps_of(steps: &[u32; 3]) -> Option<Factors>
    ensures { result ≡ lent_steps steps.now }
{
    if steps[0] == 0 {
        return None;
    }
    Some(Factors {
        along: steps[1],
        across: steps[2],
    })
}
