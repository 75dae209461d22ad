// The run of a film as coefficients.
ghost use Rattle.model.specs.Film.{film_of};
ghost use Rattle.model.specs.Run.{run_call};
ghost use Rattle.tell.specs.Numbers.{RunTold};
ghost use Rattle.archive.specs.Lent.{lent_head, Leaves};

use model::Film;

// Makes a run: result is 0 for done, 1 for stopped or 2 for over, then visits, raises, and cells raised by proposals; cell is that of Over.
#[unsafe(no_mangle)]
pub extern "C" fn film_run(
    head: &[u32; 3],
    weights: &[u16],
    diagonals: &[u32],
    rights: &[u32],
    ups: &[u32],
    sources: &[i64],
    field: &mut [u32],
    budget: u32,
    order: u32,
    proposals: bool,
    res: &mut [u32; 4],
    cell: &mut usize,
    place: &mut usize,
) -> u32
    ensures { Leaves (run_call (film_of (lent_head head.now) weights.now diagonals.now rights.now ups.now sources.now) budget order proposals field.old) (λ a. RunTold a res.old cell.old place.old result res.new cell.new place.new) field.new }
{
    let film = Film {
        head: archive::head_of(head),
        weights,
        diagonals,
        rights,
        ups,
        sources,
    };
    tell::run(
        run::run(&film, field, budget, order, proposals),
        res,
        cell,
        place,
    )
}
