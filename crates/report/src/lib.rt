// The report: from the bytes of a film file to the bytes of the text, through one run from zero. It takes files of either kind, by the tag that
// stands behind the weights. The call asks nothing of its caller: a buffer that could not hold the longest report is refused, and every
// file has its report, a refused one too.
//
// Proved: the answer, and the lent buffer, are those of crate `model` (report_call): the text that `report_of` gives for the file's
// bytes, byte for byte, and nothing beyond it has changed.
#![tactic(auto)]

ghost use Rattle.std.specs.Prelude.{◌≡◌};
ghost use Rattle.model.specs.Result.{answer_of, Gives};
ghost use Rattle.model.specs.EitherFile.{tagged06};
ghost use Rattle.model.specs.Report.{report_of};
ghost use Rattle.model.specs.ReportCall.{report_call};
ghost use Rattle.text.specs.Writes.{Fits, Writes};

use fault::Fault;
use model::Refusal;

// The length of the longest report, as in model/specs/ReportCall.
const LONGEST: usize = 33288;

// The first tag of a coefficient film's own fields.
const DIAGONALS: u8 = 6;

// Whether that tag stands behind the weights, as many as the shape in the file says, or none. What fields 01 to 03 are refused for, both
// readers refuse alike: so nothing of them is tested here.
fn tagged_06(file: &[u8]) -> bool
    ensures { result ≡ tagged06 file.now }
{
    let rows = u32::from(words::numbers::byte_at(file, 3));
    let columns = u32::from(words::numbers::byte_at(file, 4));
    let weights = headers::carried(file, shape::area(rows, columns));
    words::numbers::byte_at(file, 15 + 2 * weights) == DIAGONALS
}

// The report of a file.
fn put_report(file: &[u8], out: &mut [u8]) -> usize
    requires { Fits (report_of file.now) out.old 0 }
    ensures { Writes (report_of file.now) out.old 0 out.new result }
{
    if tagged_06(file) {
        return coefficient_report::put_coefficients(file, out);
    }
    gauged_report::put_gauged(file, out)
}

// Writes the report of a film file into a lent buffer that holds any report, and answers its length. Places beyond it keep their
// contents.
pub fn report(file: &[u8], out: &mut [u8]) -> Result<usize, Refusal>
    ensures { Gives (report_call file.now out.old) (answer_of result) out.new }
{
    refusals::fail_if(out.len() < LONGEST, Fault::WrongBuffer, 0)?;
    Ok(put_report(file, out))
}
