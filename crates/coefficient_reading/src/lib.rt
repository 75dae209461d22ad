// The numbers of a coefficient film file whose fields have passed their tests: 14 is tested, then its weights for 9, or they are found where the file has none, and
// then all are written into the lent buffers. Internal: the reader calls `read_fields`.
//
// Proved: answer and lent buffers are those of crate `model`, by what these tests and the search find (`LoadsFilm`).
#![tactic(auto)]

ghost use Rattle.std.specs.Prelude.{◌≡◌, ◌+◌, ◌*◌, ◌≤◌, length};
ghost use Rattle.model.specs.Refusals.{pass};
ghost use Rattle.model.specs.Result.{answer_of};
ghost use Rattle.model.specs.File.{fields_check};
ghost use Rattle.model.specs.CoefficientFile.{film_in, coefficient_fields_in};
ghost use Rattle.model.specs.CoefficientCalls.{LoadsFilm};
ghost use Rattle.coefficient_reading.specs.Reading.{Buffers, Decoded, Stands, rest_check, Weighs};

use model::{Film, Head, Refusal};

// The lists of coefficients that stand in a file from an offset on, each behind three bytes of tag and length, into the first n places of four tables.
fn decode(
    file: &[u8],
    from: usize,
    n: usize,
    diagonals: &mut [u32],
    rights: &mut [u32],
    ups: &mut [u32],
    sources: &mut [i64],
)
    requires room { (n ≤ length diagonals.old) × (n ≤ length rights.old) × (n ≤ length ups.old) × (n ≤ length sources.old) }
    requires inside { (from ≤ 5000) × (n ≤ 1024) × (from + 20 * n + 9 ≤ length file.now) }
    ensures { Decoded file.now from n diagonals.new rights.new ups.new sources.new }
{
    number_lists::longs_in(file, from, n, diagonals);
    number_lists::longs_in(file, from + 4 * n + 3, n, rights);
    number_lists::longs_in(file, from + 8 * n + 6, n, ups);
    number_lists::sources_in(file, from + 12 * n + 9, n, sources);
}

// Refusal 14; then the film's weights, into a table of as many: those that stand in the file, and whether 9 passes; or those that are found, and whether they are.
fn tested<'a>(
    file: &[u8],
    head: Head,
    diagonals: &'a [u32],
    rights: &'a [u32],
    ups: &'a [u32],
    sources: &'a [i64],
    weights: &mut [u16],
) -> Result<(), Refusal>
    requires { Stands file.now head diagonals.now rights.now ups.now sources.now × (length weights.old ≡ head.rows * head.columns) }
    ensures { Weighs file.now result weights.new }
{
    limits::coefficient_test(&Film {
        head,
        weights: &weights[..],
        diagonals,
        rights,
        ups,
        sources,
    })?;
    if headers::weightless(file) {
        return weighing::search(head, diagonals, rights, ups, weights);
    }
    let n = weights.len();
    reading::weights_in(file, n, weights);
    let film = Film {
        head,
        weights: &weights[..],
        diagonals,
        rights,
        ups,
        sources,
    };
    dominance::dominance_test(&film)
}

// A film that stands in a file, into buffers that have room, where these tests pass. Until then its weights are in a table lent for them.
fn hand_over(
    file: &[u8],
    head: Head,
    words: &mut [u16],
    diagonals: &[u32],
    rights: &[u32],
    ups: &[u32],
    sources: &[i64],
    weights_out: &mut [u16],
    diagonals_out: &mut [u32],
    rights_out: &mut [u32],
    ups_out: &mut [u32],
    sources_out: &mut [i64],
) -> Result<Head, Refusal>
    requires stands { Stands file.now head diagonals.now rights.now ups.now sources.now × (length words.old ≡ head.rows * head.columns) }
    requires buffers { Buffers weights_out.old diagonals_out.old rights_out.old ups_out.old sources_out.old }
    ensures { LoadsFilm (rest_check file.now) (film_in file.now) weights_out.old diagonals_out.old rights_out.old ups_out.old sources_out.old (answer_of result) weights_out.new diagonals_out.new rights_out.new ups_out.new sources_out.new }
{
    tested(file, head, diagonals, rights, ups, sources, words)?;
    text::put(weights_out, 0, &words[..]);
    text::put(diagonals_out, 0, diagonals);
    text::put(rights_out, 0, rights);
    text::put(ups_out, 0, ups);
    text::put(sources_out, 0, sources);
    Ok(head)
}

// Reads a file whose fields have passed their tests. The other tests are still to be made, and the lent buffers are written after them: until then the numbers are in
// tables of its own.
#[tactic(auto, using(crate::proofs::Numbers::few_numbers, crate::proofs::Numbers::room_in, crate::proofs::Numbers::part_in))]
pub fn read_fields(
    file: &[u8],
    weights: &mut [u16],
    diagonals: &mut [u32],
    rights: &mut [u32],
    ups: &mut [u32],
    sources: &mut [i64],
) -> Result<Head, Refusal>
    requires fields { fields_check (coefficient_fields_in file.now) file.now ≡ pass }
    requires buffers { Buffers weights.old diagonals.old rights.old ups.old sources.old }
    ensures { LoadsFilm (rest_check file.now) (film_in file.now) weights.old diagonals.old rights.old ups.old sources.old (answer_of result) weights.new diagonals.new rights.new ups.new sources.new }
{
    let head = reading::head_in(file);
    let n = shape::area(head.rows, head.columns);
    let from = 18 + 2 * headers::carried(file, n);
    let mut w = [0u16; 1024];
    let mut d = [0u32; 1024];
    let mut r = [0u32; 1024];
    let mut u = [0u32; 1024];
    let mut s = [0i64; 1024];
    decode(file, from, n, &mut d, &mut r, &mut u, &mut s);
    hand_over(
        file,
        head,
        &mut w[..n],
        &d[..n],
        &r[..n],
        &u[..n],
        &s[..n],
        weights,
        diagonals,
        rights,
        ups,
        sources,
    )
}
