// The report of a file that the reader of gauged films reads: of the film that its numbers form, or of its refusal. Internal: `report` calls it where
// the tag behind the weights is not 06.
//
// Proved: the text is that of crate `model` for what the reader answers (`report_by`), byte for byte.
#![tactic(auto)]

ghost use Rattle.std.specs.Prelude.{◌≡◌, ◌≤◌, true};
ghost use Rattle.model.specs.Refusals.{pass};
ghost use Rattle.model.specs.Coefficients.{formed};
ghost use Rattle.model.specs.File.{cells, read_film, gauge_check, Values};
ghost use Rattle.model.specs.EitherFile.{formed_by};
ghost use Rattle.model.specs.Report.{film_report, report_by};
ghost use Rattle.text.specs.Writes.{Fits, Writes};

use model::{Film, Gauged};

// The number of its cells, which tables hold.
fn count(film: &Gauged) -> usize
    requires { Values film.now × (gauge_check film.now true ≡ pass) }
    ensures { (result ≡ cells film.now.rows film.now.columns) × (result ≤ 1024) }
{
    film.weights.len()
}

// The report of a film's numbers that have passed their tests.
fn put_film(film: &Gauged, out: &mut [u8]) -> usize
    requires values { Values film.now × (gauge_check film.now true ≡ pass) }
    requires fits { Fits (film_report (formed film.now)) out.old 0 }
    ensures { Writes (film_report (formed film.now)) out.old 0 out.new result }
{
    let n = count(film);
    let mut diagonals = [0u32; 1024];
    let mut rights = [0u32; 1024];
    let mut ups = [0u32; 1024];
    let mut sources = [0i64; 1024];
    let mut field = [0u32; 1024];
    forming::form(film, &mut diagonals, &mut rights, &mut ups, &mut sources);
    let formed = Film {
        head: film.head,
        weights: film.weights,
        diagonals: &diagonals[..n],
        rights: &rights[..n],
        ups: &ups[..n],
        sources: &sources[..n],
    };
    film_text::put_run(&formed, &mut field[..n], out)
}

// The report of a file.
pub fn put_gauged(file: &[u8], out: &mut [u8]) -> usize
    requires { Fits (report_by (formed_by (read_film file.now))) out.old 0 }
    ensures { Writes (report_by (formed_by (read_film file.now))) out.old 0 out.new result }
{
    let mut weights = [0u16; 1024];
    let mut thicknesses = [0u8; 1156];
    match file::read(file, &mut weights, &mut thicknesses) {
        Ok(numbers) => {
            let head = numbers.head;
            let n = shape::area(head.rows, head.columns);
            let t = shape::ring(head.rows, head.columns);
            let film = Gauged {
                head,
                weights: &weights[..n],
                thicknesses: &thicknesses[..t],
                wedge: numbers.wedge,
                steps: numbers.steps,
            };
            put_film(&film, out)
        }
        Err(r) => render::put_refused(r, out, 0),
    }
}
