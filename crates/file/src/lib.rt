// The film file's reader and writer. They ask nothing of their caller: each tests its input first, in document 01's order, and a
// refused call changes nothing.
//
// Proved: the reader's whole answer and both lent buffers, and the writer's answer and the lent slice, are those of crate `model`
// (Loads, save_call). proofs/Inverse: what one call wrote the other reads back, and what was read is written back as it was.
#![tactic(auto)]

ghost use Rattle.std.specs.Prelude.{◌≡◌, not};
ghost use Rattle.model.specs.Refusals.{check_of, fail_if, ◌or_else◌};
ghost use Rattle.model.specs.Result.{answer_of, answer_as, Gives};
ghost use Rattle.model.specs.File.{gauged_in, fields_check};
ghost use Rattle.model.specs.FileCalls.{save_call, Loads, loaded_of};

use fault::Fault;
use model::{Gauged, Numbers, Refusal};

// Writes the film file of a film's numbers into a lent slice of exactly its length.
pub fn write(film: &Gauged, out: &mut [u8]) -> Result<(), Refusal>
    ensures { Gives (save_call film.now out.old) (answer_of result) out.new }
{
    let fits = out.len() == writing::file_length(film.head.rows, film.head.columns, film.steps);
    gauge::gauge_tests(film, fits)?;
    writing::put_film(film, out);
    Ok(())
}

// The tests of a file's fields, and that nothing follows them. How many weights and thicknesses there should be is what the shape says that
// stands in the file: its own test comes before theirs.
fn fields_test(file: &[u8]) -> Result<(), Refusal>
    ensures { check_of result ≡ fields_check (gauged_in file.now) file.now }
{
    let rows = words::numbers::byte_at(file, 3) as u32;
    let columns = words::numbers::byte_at(file, 4) as u32;
    view::fields_test(
        file,
        shape::area(rows, columns),
        shape::ring(rows, columns),
        view::Kind::Thicknesses,
    )
}

// What is tested before the film's weights: the lent buffers, then the file.
fn opening_test(file: &[u8], fits: bool) -> Result<(), Refusal>
    ensures { check_of result ≡ (fail_if (not fits) 10 0 or_else fields_check (gauged_in file.now) file.now) }
{
    refusals::fail_if(!fits, Fault::WrongBuffer, 0)?;
    fields_test(file)
}

// Reads a film file into lent buffers of 1,024 weights and 1,156 thicknesses; places beyond those used keep their contents.
pub fn read(file: &[u8], weights: &mut [u16], thicknesses: &mut [u8]) -> Result<Numbers, Refusal>
    ensures { Loads file.now weights.old thicknesses.old (answer_as loaded_of result) weights.new thicknesses.new }
{
    let fits = (weights.len() == 1024) & (thicknesses.len() == 1156);
    opening_test(file, fits)?;
    reading::read_fields(file, weights, thicknesses)
}
