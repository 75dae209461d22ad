// The report of a file that the coefficient reader reads: of its film, or of its refusal. Internal: `report` calls it where the tag behind the
// weights is 06.
//
// Proved: the text is that of crate `model` for what the reader answers (`report_by`), byte for byte.
#![tactic(auto)]

ghost use Rattle.model.specs.CoefficientFile.{read_coefficients};
ghost use Rattle.model.specs.Report.{report_by};
ghost use Rattle.text.specs.Writes.{Fits, Writes};

use model::Film;

// The report of a file.
pub fn put_coefficients(file: &[u8], out: &mut [u8]) -> usize
    requires { Fits (report_by (read_coefficients file.now)) out.old 0 }
    ensures { Writes (report_by (read_coefficients file.now)) out.old 0 out.new result }
{
    let mut weights = [0u16; 1024];
    let mut diagonals = [0u32; 1024];
    let mut rights = [0u32; 1024];
    let mut ups = [0u32; 1024];
    let mut sources = [0i64; 1024];
    let mut field = [0u32; 1024];
    match coefficient_file::read(
        file,
        &mut weights,
        &mut diagonals,
        &mut rights,
        &mut ups,
        &mut sources,
    ) {
        Ok(head) => {
            let n = shape::area(head.rows, head.columns);
            let film = Film {
                head,
                weights: &weights[..n],
                diagonals: &diagonals[..n],
                rights: &rights[..n],
                ups: &ups[..n],
                sources: &sources[..n],
            };
            film_text::put_run(&film, &mut field[..n], out)
        }
        Err(r) => render::put_refused(r, out, 0),
    }
}
