// The report's text, from a film, a run's answer and the field that it left: which line says what. Crate `report_lines` has how a line
// is written. Internal: crates `film_text`, `gauged_report` and `coefficient_report` call it.
//
// Proved: what is written into the lent slice is exactly the text that crate `model` defines (model/specs/Report).
#![tactic(auto)]

ghost use Rattle.std.specs.Prelude.{◌≡◌, List, ℕ, ◌++◌, ◌+◌, ◌/◌, ◌%◌, ◌≤◌, ◌<◌, length};
ghost use Rattle.fault.specs.Numbers.{number_of};
ghost use Rattle.model.specs.Film.{weighted, size_of};
ghost use Rattle.model.specs.Accepted.{Limited};
ghost use Rattle.model.specs.Result.{answer_as};
ghost use Rattle.model.specs.Run.{ran_of};
ghost use Rattle.model.specs.Report.{line, over_word, cell_line, cell_lines, outranks as outranks_of, peak_of, field_text, answer_line, refused_line};
ghost use Rattle.text.specs.Writes.{Fits, Writes};
ghost use Rattle.report_lines.specs.Lines.{pair};
ghost use Rattle.render.specs.Answer.{Inside, text_of};

use model::{Counts, Film, Ran, Refusal};

// Row and column of a cell, counted from 1.
fn row(at: usize, columns: u32) -> u64
    requires { (1 ≤ columns) × (at ≤ 1024) }
    ensures { result ≡ at / columns + 1 }
{
    at as u64 / u64::from(columns) + 1
}

fn column(at: usize, columns: u32) -> u64
    requires { (1 ≤ columns) × (at ≤ 1024) }
    ensures { result ≡ at % columns + 1 }
{
    at as u64 % u64::from(columns) + 1
}

// Whether a cell takes the peak's place from one before it, of pressure `top` in column `edge`.
fn outranks(top: u32, edge: u32, pressure: u32, column: u32) -> bool
    ensures { result ≡ outranks_of top edge pressure column }
{
    top < pressure || (top == pressure && edge < column)
}

// The peak, and `edge` is its column. Columns are counted along, so that no index is divided.
fn peak(field: &[u32], columns: u32) -> usize
    requires { 1 ≤ columns }
    ensures { result ≡ peak_of columns field.now (length field.now) }
{
    let mut best = 0;
    let mut edge = 0;
    let mut column = 0;
    for (i, pressure) in field.iter().enumerate() {
        if outranks(field[best], edge, *pressure, column) {
            best = i;
            edge = column;
        }
        column += 1;
        if column == columns {
            column = 0;
        }
    }
    best
}

// The line of a refusal.
pub fn put_refused(refusal: Refusal, out: &mut [u8], at: usize) -> usize
    requires { Fits (refused_line (number_of refusal.fault) refusal.place) out.old at }
    ensures { Writes (refused_line (number_of refusal.fault) refusal.place) out.old at out.new result }
{
    let fault = refusal.fault;
    report_lines::put_counted(
        out,
        at,
        b"REFUSED",
        u64::from(fault.number()),
        refusal.place as u64,
    )
}

// The line of one cell.
fn put_cell(film: &Film, field: &[u32], cell: usize, out: &mut [u8], at: usize) -> usize
    requires limited { (w : List ℕ) × Limited (weighted film.now w) }
    requires field { (length field.now ≡ size_of film.now) × (cell < size_of film.now) }
    requires fits { Fits (cell_line film.now field.now cell) out.old at }
    ensures { Writes (cell_line film.now field.now cell) out.old at out.new result }
{
    let columns = film.head.columns;
    report_lines::put_cell(
        out,
        at,
        row(cell, columns),
        column(cell, columns),
        u64::from(field[cell]),
        grid::slack_of(film, field, cell),
    )
}

// The lines of all cells, by index.
fn put_cells(film: &Film, field: &[u32], out: &mut [u8], at: usize) -> usize
    requires limited { (w : List ℕ) × Limited (weighted film.now w) }
    requires field { length field.now ≡ size_of film.now }
    requires fits { Fits (cell_lines film.now field.now (size_of film.now)) out.old at }
    ensures { Writes (cell_lines film.now field.now (size_of film.now)) out.old at out.new result }
{
    let mut next = at;
    for i in 0..field.len() {
        next = put_cell(film, field, i, out, next);
    }
    next
}

// What follows Done and Stopped: the cells, and the peak.
fn put_field(film: &Film, field: &[u32], out: &mut [u8], at: usize) -> usize
    requires limited { (w : List ℕ) × Limited (weighted film.now w) }
    requires field { length field.now ≡ size_of film.now }
    requires fits { Fits (field_text film.now field.now) out.old at }
    ensures { Writes (field_text film.now field.now) out.old at out.new result }
{
    let next = put_cells(film, field, out, at);
    let columns = film.head.columns;
    let top = peak(field, columns);
    report_lines::put_peak(
        out,
        next,
        row(top, columns),
        column(top, columns),
        u64::from(field[top]),
    )
}

// The line of an answer and its counts.
fn put_counts(word: &[u8], counts: Counts, out: &mut [u8], at: usize) -> usize
    requires { Fits (answer_line word.now counts) out.old at }
    ensures { Writes (answer_line word.now counts) out.old at out.new result }
{
    report_lines::put_counted(
        out,
        at,
        word,
        u64::from(counts.visits),
        u64::from(counts.raises),
    )
}

// Done or Stopped: the answer's line, the cells and the peak.
fn put_ended(
    film: &Film,
    field: &[u32],
    word: &[u8],
    counts: Counts,
    out: &mut [u8],
    at: usize,
) -> usize
    requires limited { (w : List ℕ) × Limited (weighted film.now w) }
    requires field { length field.now ≡ size_of film.now }
    requires fits { Fits (answer_line word.now counts ++ field_text film.now field.now) out.old at }
    ensures { Writes (answer_line word.now counts ++ field_text film.now field.now) out.old at out.new result }
{
    let next = put_counts(word, counts, out, at);
    put_field(film, field, out, next)
}

// Over: the answer's line, and the cell's row and column.
fn put_over(columns: u32, cell: usize, counts: Counts, out: &mut [u8], at: usize) -> usize
    requires inside { (1 ≤ columns) × (cell ≤ 1024) }
    requires fits { Fits (answer_line over_word counts ++ line (pair (cell / columns + 1) (cell % columns + 1))) out.old at }
    ensures { Writes (answer_line over_word counts ++ line (pair (cell / columns + 1) (cell % columns + 1))) out.old at out.new result }
{
    let next = put_counts(b"OVER", counts, out, at);
    report_lines::put_place(out, next, row(cell, columns), column(cell, columns))
}

// A run's answer, and what follows it.
pub fn put_answer(
    film: &Film,
    field: &[u32],
    answer: Result<Ran, Refusal>,
    out: &mut [u8],
    at: usize,
) -> usize
    requires limited { (w : List ℕ) × Limited (weighted film.now w) }
    requires field { (length field.now ≡ size_of film.now) × Inside (size_of film.now) (answer_as ran_of answer) }
    requires fits { Fits (text_of film.now (answer_as ran_of answer) field.now) out.old at }
    ensures { Writes (text_of film.now (answer_as ran_of answer) field.now) out.old at out.new result }
{
    match answer {
        Ok(Ran::Done(c)) => put_ended(film, field, b"DONE", c, out, at),
        Ok(Ran::Stopped(c)) => put_ended(film, field, b"STOPPED", c, out, at),
        Ok(Ran::Over(cell, c)) => put_over(film.head.columns, cell, c, out, at),
        Err(r) => put_refused(r, out, at),
    }
}
