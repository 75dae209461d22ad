// The film file's fields as the writer puts them into a lent slice, one behind the other, and the length of the whole file. Internal: the
// writer calls it once its tests have passed, so it asks for room; that of coefficient films takes the first three fields from here.
//
// Proved: each field's bytes are those that crate `model` gives it (`field`), written at its offset and nowhere else; the five, and the optional one where
// the film has it, fill the slice and are the film's file (`file_of`).
#![tactic(auto)]

ghost use Rattle.std.specs.Prelude.{◌≡◌, [], ◌∷◌, ◌+◌, ◌*◌, ◌≤◌, length};
ghost use Rattle.std.proofs.lemmas.List.Edits.{sets};
ghost use Rattle.model.specs.Gauge.{factors_of, Stepped};
ghost use Rattle.model.specs.Bytes.{long};
ghost use Rattle.model.specs.Fields.{field};
ghost use Rattle.model.specs.File.{weight_bytes, file_of};
ghost use Rattle.writing.specs.Writable.{steps_bytes, file_length, Writable};

use model::{Factors, Gauged};

// The field of two numbers of a byte.
fn put_pair(out: &mut [u8], at: usize, tag: u8, first: u32, second: u32)
    requires { (at + 5 ≤ length out.old) × (first ≤ 255) × (second ≤ 255) }
    ensures { out.new ≡ sets out.old at (field tag 2 (first ∷ second ∷ [])) }
{
    words::put::put_header(out, at, tag, 2);
    out[at + 3] = first as u8;
    out[at + 4] = second as u8;
}

// The field of the shape, at the start of a file.
pub fn put_shape(out: &mut [u8], rows: u32, columns: u32)
    requires { (5 ≤ length out.old) × (rows ≤ 255) × (columns ≤ 255) }
    ensures { out.new ≡ sets out.old 0 (field 1 2 (rows ∷ columns ∷ [])) }
{
    put_pair(out, 0, 1, rows, columns);
}

// The field of one number of four bytes.
pub fn put_number(out: &mut [u8], at: usize, tag: u8, n: u32)
    requires { at + 7 ≤ length out.old }
    ensures { out.new ≡ sets out.old at (field tag 4 (long n)) }
{
    words::put::put_header(out, at, tag, 4);
    words::put::put_long(out, at + 3, n);
}

// The field of the weights.
pub fn put_weights(out: &mut [u8], at: usize, weights: &[u16])
    requires { (at + 3 + 2 * length weights.now ≤ length out.old) × (length weights.now ≤ 1024) }
    ensures { out.new ≡ sets out.old at (field 3 (2 * length weights.now) (weight_bytes weights.now)) }
{
    words::put::put_header(out, at, 3, 2 * (weights.len() as u32));
    words::put::put_weights(out, at + 3, weights);
}

// The field of the thicknesses.
fn put_thicknesses(out: &mut [u8], at: usize, thicknesses: &[u8])
    requires { (at + 3 + length thicknesses.now ≤ length out.old) × (length thicknesses.now ≤ 1156) }
    ensures { out.new ≡ sets out.old at (field 4 (length thicknesses.now) thicknesses.now) }
{
    words::put::put_header(out, at, 4, thicknesses.len() as u32);
    text::put_bytes(out, at + 3, thicknesses);
}

// The field of the steps, if the film has one.
fn put_steps(out: &mut [u8], at: usize, steps: Option<Factors>)
    requires { (at + length (steps_bytes steps) ≤ length out.old) × Stepped (factors_of steps) }
    ensures { out.new ≡ sets out.old at (steps_bytes steps) }
{
    if let Some(factors) = steps {
        put_pair(out, at, 10, factors.along, factors.across);
    }
}

// Its length, or 0.
fn steps_length(steps: Option<Factors>) -> usize
    ensures { result ≡ length (steps_bytes steps) }
{
    if steps.is_some() { 5 } else { 0 }
}

// The length of the file of a film with so many rows and columns, and steps or none; 0 if a side is beyond its limit.
#[tactic(auto, unfolding(crate::specs::Writable::file_length))]
pub fn file_length(rows: u32, columns: u32, steps: Option<Factors>) -> usize
    ensures { result ≡ file_length rows columns steps }
{
    if 32 < rows || 32 < columns {
        return 0;
    }
    25 + 2 * shape::area(rows, columns) + shape::ring(rows, columns) + steps_length(steps)
}

// Writes a film's file, field by field.
pub fn put_film(film: &Gauged, out: &mut [u8])
    requires { Writable film.now out.old }
    ensures { out.new ≡ file_of film.now }
{
    let end = 15 + 2 * film.weights.len(); // behind the weights
    let last = end + 3 + film.thicknesses.len(); // behind the thicknesses
    put_shape(out, film.head.rows, film.head.columns);
    put_number(out, 5, 2, film.head.ceiling);
    put_weights(out, 12, film.weights);
    put_thicknesses(out, end, film.thicknesses);
    put_number(out, last, 5, words::numbers::unsigned(film.wedge));
    put_steps(out, last + 7, film.steps);
}
