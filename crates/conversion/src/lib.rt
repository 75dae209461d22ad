// The converter (document 02, W1): from a gauged film's numbers to the bytes of the coefficient film of the same problem; grid steps are worked into the
// links. It asks nothing of its caller: it tests its input first, as the call that forms coefficients does, and a refused call changes nothing.
//
// Proved: the whole answer, and the lent slice, are those of crate `model` (convert_call). Its proofs/CoefficientFile: these bytes read as the film
// that forming gives (`converted_reads`).
#![tactic(auto)]

ghost use Rattle.std.specs.Prelude.{◌≡◌, length};
ghost use Rattle.model.specs.Gauge.{factors_of, Stepped};
ghost use Rattle.model.specs.Coefficients.{formed};
ghost use Rattle.model.specs.Result.{answer_of, Gives};
ghost use Rattle.model.specs.File.{cells};
ghost use Rattle.model.specs.CoefficientFile.{coefficient_end, coefficient_file_of};
ghost use Rattle.model.specs.CoefficientCalls.{convert_call};
ghost use Rattle.gauge.specs.Tests.{Measured};

use model::{Film, Gauged, Refusal};

// The file of the film that numbers form whose shape and lengths have passed their tests. The coefficients are in tables of its own.
fn put_formed(film: &Gauged, out: &mut [u8])
    requires measured { Measured film.now × Stepped (factors_of film.now.steps) }
    requires room { length out.old ≡ coefficient_end (cells film.now.rows film.now.columns) }
    ensures { out.new ≡ coefficient_file_of (formed film.now) }
{
    let n = film.weights.len();
    let mut diagonals = [0u32; 1024];
    let mut rights = [0u32; 1024];
    let mut ups = [0u32; 1024];
    let mut sources = [0i64; 1024];
    forming::form(film, &mut diagonals, &mut rights, &mut ups, &mut sources);
    let film = Film {
        head: film.head,
        weights: film.weights,
        diagonals: &diagonals[..n],
        rights: &rights[..n],
        ups: &ups[..n],
        sources: &sources[..n],
    };
    coefficient_writing::put_film(&film, out);
}

// Writes the coefficient film's file of a gauged film's numbers into a lent slice of exactly its length.
pub fn convert(film: &Gauged, out: &mut [u8]) -> Result<(), Refusal>
    ensures { Gives (convert_call film.now out.old) (answer_of result) out.new }
{
    let fits = out.len() == coefficient_writing::file_length(film.head.rows, film.head.columns);
    gauge::gauge_tests(film, fits)?;
    put_formed(film, out);
    Ok(())
}
