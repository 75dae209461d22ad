// The reader and the writer of coefficient film files (document 02, W1). They ask nothing of their caller: each tests its input first, in the
// documents' order, and a refused call changes nothing.
//
// Proved: the reader's whole answer and the five lent buffers, and the writer's answer and the lent slice, are those of crate `model`
// (LoadsCoefficients, coefficient_save_call). Its proofs/CoefficientInverse: what one call wrote the other reads back, and the other way round.
#![tactic(auto)]

ghost use Rattle.std.specs.Prelude.{◌≡◌, not};
ghost use Rattle.model.specs.Refusals.{check_of, fail_if, ◌or_else◌};
ghost use Rattle.model.specs.Result.{answer_of, Gives};
ghost use Rattle.model.specs.File.{fields_check};
ghost use Rattle.model.specs.CoefficientFile.{coefficient_fields_in};
ghost use Rattle.model.specs.CoefficientCalls.{LoadsCoefficients, coefficient_save_call};

use fault::Fault;
use model::{Film, Head, Refusal};

// Writes the file of a film that comes as coefficients into a lent slice of exactly its length.
pub fn write(film: &Film, out: &mut [u8]) -> Result<(), Refusal>
    ensures { Gives (coefficient_save_call film.now out.old) (answer_of result) out.new }
{
    let fits = out.len() == coefficient_writing::file_length(film.head.rows, film.head.columns);
    coefficient_tests::writer_tests(film, fits)?;
    coefficient_writing::put_film(film, out);
    Ok(())
}

// The tests of a file's fields, and that nothing follows them. How many numbers there should be is what the shape says that stands in the
// file: its own test comes before theirs.
fn fields_test(file: &[u8]) -> Result<(), Refusal>
    ensures { check_of result ≡ fields_check (coefficient_fields_in file.now) file.now }
{
    let rows = words::numbers::byte_at(file, 3) as u32;
    let columns = words::numbers::byte_at(file, 4) as u32;
    view::fields_test(
        file,
        shape::area(rows, columns),
        0,
        view::Kind::Coefficients,
    )
}

// What is tested before the film's coefficients and weights: the lent buffers, then the file.
fn opening_test(file: &[u8], fits: bool) -> Result<(), Refusal>
    ensures { check_of result ≡ (fail_if (not fits) 10 0 or_else fields_check (coefficient_fields_in file.now) file.now) }
{
    refusals::fail_if(!fits, Fault::WrongBuffer, 0)?;
    fields_test(file)
}

// Reads a coefficient film file into lent buffers of 1,024 numbers each; places beyond those used keep their contents.
pub fn read(
    file: &[u8],
    weights: &mut [u16],
    diagonals: &mut [u32],
    rights: &mut [u32],
    ups: &mut [u32],
    sources: &mut [i64],
) -> Result<Head, Refusal>
    ensures { LoadsCoefficients file.now weights.old diagonals.old rights.old ups.old sources.old (answer_of result) weights.new diagonals.new rights.new ups.new sources.new }
{
    let fits = (weights.len() == 1024)
        & (diagonals.len() == 1024)
        & (rights.len() == 1024)
        & (ups.len() == 1024)
        & (sources.len() == 1024);
    opening_test(file, fits)?;
    coefficient_reading::read_fields(file, weights, diagonals, rights, ups, sources)
}
