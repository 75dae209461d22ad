// A coefficient film's fields as its writer puts them into a lent slice, one behind the other, and the length of the whole file. Internal: the
// writer and the converter call it once their tests have passed, so it asks for room.
//
// Proved: each field's bytes are those that crate `model` gives it (`field`), written at its offset and nowhere else; the seven fill the
// slice and are the film's file (`coefficient_file_of`).
#![tactic(auto)]

ghost use Rattle.std.specs.Prelude.{◌≡◌, [], ◌∷◌, ◌+◌, ◌*◌, ◌≤◌, length};
ghost use Rattle.std.proofs.lemmas.List.Edits.{sets};
ghost use Rattle.model.specs.Bytes.{long, listed};
ghost use Rattle.model.specs.Fields.{field, bytes_of};
ghost use Rattle.model.specs.CoefficientFile.{source_bytes, coefficient_file_of};
ghost use Rattle.coefficient_writing.specs.Writable.{coefficient_length, opening_bytes, own_bytes, Numbers, Writable};

use model::Film;

// A field of numbers of four bytes.
fn put_longs(out: &mut [u8], at: usize, tag: u8, longs: &[u32])
    requires { (at + 3 + 4 * length longs.now ≤ length out.old) × (length longs.now ≤ 1024) }
    ensures { out.new ≡ sets out.old at (field tag (4 * length longs.now) (listed long longs.now)) }
{
    words::put::put_header(out, at, tag, 4 * (longs.len() as u32));
    number_lists::put_longs(out, at + 3, longs);
}

// The field of the sources.
fn put_sources(out: &mut [u8], at: usize, sources: &[i64])
    requires { (at + 3 + 8 * length sources.now ≤ length out.old) × (length sources.now ≤ 1024) }
    ensures { out.new ≡ sets out.old at (field 9 (8 * length sources.now) (listed source_bytes sources.now)) }
{
    words::put::put_header(out, at, 9, 8 * (sources.len() as u32));
    number_lists::put_sources(out, at + 3, sources);
}

// The three fields that all films share.
fn put_opening(film: &Film, out: &mut [u8])
    requires sides { (film.now.rows ≤ 255) × (film.now.columns ≤ 255) }
    requires room { (length film.now.weights ≤ 1024) × (15 + 2 * length film.now.weights ≤ length out.old) }
    ensures { out.new ≡ sets out.old 0 (opening_bytes film.now) }
{
    writing::put_shape(out, film.head.rows, film.head.columns);
    writing::put_number(out, 5, 2, film.head.ceiling);
    writing::put_weights(out, 12, film.weights);
}

// The four of a coefficient film's own, n numbers each, from an offset on.
fn put_own(film: &Film, n: usize, out: &mut [u8], at: usize)
    requires numbers { Numbers n film.now × (n ≤ 1024) }
    requires room { at + 12 + 20 * n ≤ length out.old }
    ensures { out.new ≡ sets out.old at (own_bytes film.now) }
{
    put_longs(out, at, 6, film.diagonals);
    put_longs(out, at + 3 + 4 * n, 7, film.rights);
    put_longs(out, at + 6 + 8 * n, 8, film.ups);
    put_sources(out, at + 9 + 12 * n, film.sources);
}

// The length of the file of a film with so many rows and columns; 0 if a side is beyond its limit.
#[tactic(auto, unfolding(crate::specs::Writable::coefficient_length))]
pub fn file_length(rows: u32, columns: u32) -> usize
    ensures { result ≡ coefficient_length rows columns }
{
    if 32 < rows || 32 < columns {
        return 0;
    }
    27 + 22 * shape::area(rows, columns)
}

// Writes a film's file, field by field.
pub fn put_film(film: &Film, out: &mut [u8])
    requires { Writable film.now out.old }
    ensures { out.new ≡ coefficient_file_of film.now }
{
    let n = film.weights.len();
    put_opening(film, out);
    put_own(film, n, out, 15 + 2 * n);
}
