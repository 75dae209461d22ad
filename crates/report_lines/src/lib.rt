// The report's lines, by the numbers that stand on them, written into a lent slice from an offset on. One space stands between, and each
// line ends with a line feed. Internal: the report calls it. Each writer answers the place after what it wrote.
//
// Proved: the slice then holds exactly the text that crate `model` defines, and no other place of it has changed.
#![tactic(auto)]

ghost use Rattle.model.specs.Report.{◌␣◌, line, decimal, signed};
ghost use Rattle.text.specs.Writes.{Fits, Writes};
ghost use Rattle.report_lines.specs.Lines.{pair, head_text, cell_text, peak_text};

// In ASCII.
const SPACE: u8 = 32;

const NEWLINE: u8 = 10;

// Two numbers, such as a cell's row and column.
fn put_pair(out: &mut [u8], at: usize, a: u64, b: u64) -> usize
    requires { Fits (pair a b) out.old at }
    ensures { Writes (pair a b) out.old at out.new result }
{
    let spaced = text::put_decimal(out, at, a);
    let next = text::put_byte(out, spaced, SPACE);
    text::put_decimal(out, next, b)
}

// The last number of a line.
fn put_last(out: &mut [u8], at: usize, n: u64) -> usize
    requires { Fits (line (decimal n)) out.old at }
    ensures { Writes (line (decimal n)) out.old at out.new result }
{
    let end = text::put_decimal(out, at, n);
    text::put_byte(out, end, NEWLINE)
}

// A row and a column alone on their line: where a run went over the ceiling.
pub fn put_place(out: &mut [u8], at: usize, row: u64, column: u64) -> usize
    requires { Fits (line (pair row column)) out.old at }
    ensures { Writes (line (pair row column)) out.old at out.new result }
{
    let end = put_pair(out, at, row, column);
    text::put_byte(out, end, NEWLINE)
}

// A word and two numbers: an answer with its counts, or a refusal with number and place.
pub fn put_counted(out: &mut [u8], at: usize, word: &[u8], a: u64, b: u64) -> usize
    requires { Fits (line (word.now ␣ pair a b)) out.old at }
    ensures { Writes (line (word.now ␣ pair a b)) out.old at out.new result }
{
    let spaced = text::put_bytes(out, at, word);
    let next = text::put_byte(out, spaced, SPACE);
    put_place(out, next, a, b)
}

// The film's shape and ceiling.
pub fn put_head(out: &mut [u8], at: usize, rows: u64, columns: u64, ceiling: u64) -> usize
    requires { Fits (head_text rows columns ceiling) out.old at }
    ensures { Writes (head_text rows columns ceiling) out.old at out.new result }
{
    let shape = text::put_bytes(out, at, b"FILM ");
    let spaced = put_pair(out, shape, rows, columns);
    let next = text::put_bytes(out, spaced, b" CEILING ");
    put_last(out, next, ceiling)
}

// Where the pressure is greatest, and that pressure.
pub fn put_peak(out: &mut [u8], at: usize, row: u64, column: u64, pressure: u64) -> usize
    requires { Fits (peak_text row column pressure) out.old at }
    ensures { Writes (peak_text row column pressure) out.old at out.new result }
{
    let place = text::put_bytes(out, at, b"PEAK ");
    let spaced = put_pair(out, place, row, column);
    let next = text::put_byte(out, spaced, SPACE);
    put_last(out, next, pressure)
}

// A cell's pressure and slack, which end its line.
fn put_values(out: &mut [u8], at: usize, pressure: u64, slack: i64) -> usize
    requires { Fits (line (decimal pressure ␣ signed slack)) out.old at }
    ensures { Writes (line (decimal pressure ␣ signed slack)) out.old at out.new result }
{
    let spaced = text::put_decimal(out, at, pressure);
    let next = text::put_byte(out, spaced, SPACE);
    let end = text::put_signed(out, next, slack);
    text::put_byte(out, end, NEWLINE)
}

// A cell's row, column, pressure and slack.
pub fn put_cell(
    out: &mut [u8],
    at: usize,
    row: u64,
    column: u64,
    pressure: u64,
    slack: i64,
) -> usize
    requires { Fits (cell_text row column pressure slack) out.old at }
    ensures { Writes (cell_text row column pressure slack) out.old at out.new result }
{
    let spaced = put_pair(out, at, row, column);
    let next = text::put_byte(out, spaced, SPACE);
    put_values(out, next, pressure, slack)
}
