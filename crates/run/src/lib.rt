// The public run: relaxations of a film's cells by an ordering, with the program's own line proposals before them or without, until
// nothing rises, the ceiling is passed or the budget is used. It asks nothing of its caller: it tests its input first, in
// document 01's order, and a refused run changes nothing.
//
// Proved: the whole answer with its counts, and the field, are those of crate `model` (run_call).
#![tactic(auto)]

ghost use Rattle.model.specs.Result.{answer_as, Gives};
ghost use Rattle.model.specs.Run.{ran_of, run_call};

use model::{Film, Ran, Refusal};

// A run: relaxations by an ordering until nothing rises, the ceiling is passed or the budget is used, with the program's own
// proposals before them or without.
pub fn run(
    film: &Film,
    field: &mut [u32],
    budget: u32,
    order: u32,
    proposals: bool,
) -> Result<Ran, Refusal>
    ensures { Gives (run_call film.now budget order proposals field.old) (answer_as ran_of result) field.new }
{
    let ordered = refusals::order_test(order);
    checks::field_tests(film, &field[..], true, ordered, Ok(()))?;
    let accepted = own_proposals::ready(film, field, budget, proposals);
    Ok(ordered_sweep::relaxations(film, field, budget, order, accepted))
}
