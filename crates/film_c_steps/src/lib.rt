// Film for C and Rust: the public calls for a cell or a line of a film as coefficients, as C functions. As in crate `film_c`, which has runs and
// files: the returned number is 0 or the refusal's, and a film's shape and ceiling travel as one head.
//
// Proved: the returned number, and what each lent number, array and slice holds at exit, are those that crate `model` gives the call
// (slack_call, propose_call, ..), told as specs/ of crates `tell` and `told` say. As the calls themselves, they ask nothing of their caller.
#![tactic(auto)]

ghost use Rattle.model.specs.Result.{refusal_in};
ghost use Rattle.model.specs.Film.{film_of};
ghost use Rattle.model.specs.Relaxation.{relax_call, slack_call};
ghost use Rattle.model.specs.Margin.{margin_call};
ghost use Rattle.model.specs.Proposal.{propose_call};
ghost use Rattle.model.specs.Estimate.{estimate_call};
ghost use Rattle.told.specs.Refused.{Told};
ghost use Rattle.tell.specs.Numbers.{SlackTold, MarginTold, RelaxTold, ProposeTold};
ghost use Rattle.archive.specs.Lent.{lent_head, Leaves};

use model::Film;

// Tells the slack of one cell.
#[unsafe(no_mangle)]
pub extern "C" fn film_slack(
    head: &[u32; 3],
    weights: &[u16],
    diagonals: &[u32],
    rights: &[u32],
    ups: &[u32],
    sources: &[i64],
    field: &[u32],
    at: usize,
    slack: &mut i64,
    place: &mut usize,
) -> u32
    ensures { SlackTold (slack_call (film_of (lent_head head.now) weights.now diagonals.now rights.now ups.now sources.now) field.now at) slack.old place.old result slack.new place.new }
{
    let film = Film {
        head: archive::head_of(head),
        weights,
        diagonals,
        rights,
        ups,
        sources,
    };
    tell::slack(problem::slack(&film, field, at), slack, place)
}

// Tells the film's margin.
#[unsafe(no_mangle)]
pub extern "C" fn film_margin(
    head: &[u32; 3],
    weights: &[u16],
    diagonals: &[u32],
    rights: &[u32],
    ups: &[u32],
    sources: &[i64],
    margin: &mut u32,
    place: &mut usize,
) -> u32
    ensures { MarginTold (margin_call (film_of (lent_head head.now) weights.now diagonals.now rights.now ups.now sources.now)) margin.old place.old result margin.new place.new }
{
    let film = Film {
        head: archive::head_of(head),
        weights,
        diagonals,
        rights,
        ups,
        sources,
    };
    tell::margin(line_estimate::margin(&film), margin, place)
}

// Relaxes one cell: result is 0 for quiet, 1 for raised or 2 for over, then the pressure that it was raised to.
#[unsafe(no_mangle)]
pub extern "C" fn film_relax(
    head: &[u32; 3],
    weights: &[u16],
    diagonals: &[u32],
    rights: &[u32],
    ups: &[u32],
    sources: &[i64],
    field: &mut [u32],
    at: usize,
    res: &mut [u32; 2],
    place: &mut usize,
) -> u32
    ensures { Leaves (relax_call (film_of (lent_head head.now) weights.now diagonals.now rights.now ups.now sources.now) field.old at) (λ a. RelaxTold a res.old place.old result res.new place.new) field.new }
{
    let film = Film {
        head: archive::head_of(head),
        weights,
        diagonals,
        rights,
        ups,
        sources,
    };
    tell::relax(problem::relax(&film, field, at), res, place)
}

// Proposes pressures for a line: result is 1 for accepted or 0 for rejected, then the number of cells raised.
#[unsafe(no_mangle)]
pub extern "C" fn film_propose(
    head: &[u32; 3],
    weights: &[u16],
    diagonals: &[u32],
    rights: &[u32],
    ups: &[u32],
    sources: &[i64],
    field: &mut [u32],
    line: u32,
    proposal: &[u32],
    res: &mut [u32; 2],
    place: &mut usize,
) -> u32
    ensures { Leaves (propose_call (film_of (lent_head head.now) weights.now diagonals.now rights.now ups.now sources.now) line proposal.now field.old) (λ a. ProposeTold a res.old place.old result res.new place.new) field.new }
{
    let film = Film {
        head: archive::head_of(head),
        weights,
        diagonals,
        rights,
        ups,
        sources,
    };
    tell::propose(line::propose(&film, field, line, proposal), res, place)
}

// Writes the program's own proposal for a line.
#[unsafe(no_mangle)]
pub extern "C" fn film_estimate(
    head: &[u32; 3],
    weights: &[u16],
    diagonals: &[u32],
    rights: &[u32],
    ups: &[u32],
    sources: &[i64],
    field: &[u32],
    line: u32,
    proposal: &mut [u32],
    place: &mut usize,
) -> u32
    ensures { Leaves (estimate_call (film_of (lent_head head.now) weights.now diagonals.now rights.now ups.now sources.now) line field.now proposal.old) (λ a. Told (refusal_in a) place.old result place.new) proposal.new }
{
    let film = Film {
        head: archive::head_of(head),
        weights,
        diagonals,
        rights,
        ups,
        sources,
    };
    told::answer(line_estimate::estimate(&film, field, line, proposal), place)
}
