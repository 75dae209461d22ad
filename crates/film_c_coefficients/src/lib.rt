// Film for C and Rust: the public calls on coefficient film files, as C functions. As in crate `film_c`, which has runs and the calls on thickness
// films: the returned number is 0 or the refusal's, and a film's shape and ceiling travel as one head. A crate of its own, since the exports of
// an archive of rt's stand in one crate, and an edit proves its whole crate anew; bindings/archive joins them.
//
// Proved: the returned number, and what each lent number, array and slice holds at exit, are those that crate `model` gives the call
// (LoadsCoefficients, coefficient_save_call, convert_call), told as specs/ of crates `tell_files`, `archive` and `told` say. As the calls
// themselves, they ask nothing of their caller.
#![tactic(auto)]

ghost use Rattle.model.specs.Result.{refusal_in};
ghost use Rattle.model.specs.Film.{film_of};
ghost use Rattle.model.specs.FileCalls.{gauge_of};
ghost use Rattle.model.specs.CoefficientCalls.{coefficient_save_call, convert_call};
ghost use Rattle.told.specs.Refused.{Told};
ghost use Rattle.archive.specs.Lent.{lent_head, lent_steps, Leaves, CoefficientsTold};

use model::{Film, Gauged};

// Reads a coefficient film file, and its head.
#[unsafe(no_mangle)]
pub extern "C" fn film_read_coefficients(
    file: &[u8],
    weights: &mut [u16],
    diagonals: &mut [u32],
    rights: &mut [u32],
    ups: &mut [u32],
    sources: &mut [i64],
    head: &mut [u32; 3],
    place: &mut usize,
) -> u32
    ensures { CoefficientsTold file.now weights.old diagonals.old rights.old ups.old sources.old head.old place.old result weights.new diagonals.new rights.new ups.new sources.new head.new place.new }
{
    tell_files::read_coefficients(
        coefficient_file::read(file, weights, diagonals, rights, ups, sources),
        head,
        place,
    )
}

// Writes a coefficient film's file.
#[unsafe(no_mangle)]
pub extern "C" fn film_write_coefficients(
    head: &[u32; 3],
    weights: &[u16],
    diagonals: &[u32],
    rights: &[u32],
    ups: &[u32],
    sources: &[i64],
    out: &mut [u8],
    place: &mut usize,
) -> u32
    ensures { Leaves (coefficient_save_call (film_of (lent_head head.now) weights.now diagonals.now rights.now ups.now sources.now) out.old) (λ a. Told (refusal_in a) place.old result place.new) out.new }
{
    let film = Film {
        head: archive::head_of(head),
        weights,
        diagonals,
        rights,
        ups,
        sources,
    };
    told::answer(coefficient_file::write(&film, out), place)
}

// Writes the coefficient film's file of a gauged film.
#[unsafe(no_mangle)]
pub extern "C" fn film_convert(
    head: &[u32; 3],
    weights: &[u16],
    thicknesses: &[u8],
    wedge: i32,
    steps: &[u32; 3],
    out: &mut [u8],
    place: &mut usize,
) -> u32
    ensures { Leaves (convert_call (gauge_of (lent_head head.now) weights.now thicknesses.now wedge (lent_steps steps.now)) out.old) (λ a. Told (refusal_in a) place.old result place.new) out.new }
{
    let film = Gauged {
        head: archive::head_of(head),
        weights,
        thicknesses,
        wedge,
        steps: archive::steps_of(steps),
    };
    told::answer(conversion::convert(&film, out), place)
}
