// A line proposal, as a public call. It asks nothing of its caller: it tests its input first, in document 01's order, and a refused call changes
// nothing.
//
// Proved: the whole answer, and the lent field, are those of crate `model` (propose_call).
#![tactic(auto)]

ghost use Rattle.model.specs.Result.{answer_as, Gives};
ghost use Rattle.model.specs.Proposal.{proposed_of, propose_call};

use model::{Film, Refusal};

// Proposes pressures for a line of the field (document 01: a line offer): accepted, with the number of cells raised, or rejected.
pub fn propose(
    film: &Film,
    field: &mut [u32],
    line: u32,
    proposal: &[u32],
) -> Result<Option<u32>, Refusal>
    ensures { Gives (propose_call film.now line proposal.now field.old) (answer_as proposed_of result) field.new }
{
    line_checks::line_tests(film, &field[..], proposal.len(), line)?;
    let start = proposal::line_start(film.head.columns, line);
    Ok(proposal::propose(film, field, start, proposal))
}
