// A film file walked as one view of its bytes and a position: each field's view is the last one moved on. A file is of one of two kinds: the film is
// given by its thicknesses (fields 01 to 05), or by its coefficients (fields 01 to 03, then 06 to 09). Behind these optional ones may follow: the byte that stands there is
// looked at before the header, and one that is no permitted tag ends the walk. Internal: the readers of both kinds call `fields_test`.
//
// Proved: what the tests of the fields of that kind find, and then that for bytes behind them, is what crate `model` says (`fields_check`). A
// view is taken apart, moved on and made in three thin functions (`viewed`, `moved`, `walk`).
#![tactic(auto)]

ghost use Rattle.std.specs.Prelude.{◌≡◌, ◌≤◌};
ghost use Rattle.model.specs.Refusals.{check_of};
ghost use Rattle.model.specs.File.{fields_check};
ghost use Rattle.fields.specs.Tags.{Room};
ghost use Rattle.view.specs.Walks.{kind_of, next_tag, Takes, Walks};

use fault::Fault;
use model::Refusal;

// What the film of a file is given by.
#[derive(Clone, Copy)]
pub enum Kind {
    Thicknesses,
    Coefficients,
}

// A file's bytes and a position in them: the reader walks a file as this view.
#[derive(Clone, Copy)]
pub struct View<'a> {
    pub bytes: &'a [u8],
    pub at: usize,
}

// The offset behind a field, and the tag of the field that stands there, if one follows.
#[derive(Clone, Copy)]
pub struct Step {
    pub next: usize,
    pub tag: Option<u8>,
}

// The tag of the next field: the next one, but a film that is given by its coefficients has no fields 04 and 05; and behind the last field that all
// have, the byte that stands there, if it is the tag of a later optional one.
fn following(kind: Kind, tag: u8, byte: u8) -> Option<u8>
    ensures { result ≡ next_tag kind tag byte }
{
    match kind {
        Kind::Thicknesses if tag < 5 => Some(tag + 1),
        Kind::Thicknesses if byte == 10 && tag < 10 => Some(byte),
        Kind::Coefficients if tag == 3 => Some(6),
        Kind::Coefficients if tag < 9 => Some(tag + 1),
        _ => None,
    }
}

// The test of the field at an offset, and what follows it.
fn step_at(file: &[u8], at: usize, tag: u8, n: usize, t: usize, kind: Kind) -> Result<Step, Refusal>
    requires { Room at n t }
    ensures { Takes kind n t tag file.now at result }
{
    let next = fields::field_test(file, at, tag, n, t)?;
    Ok(Step {
        next,
        tag: following(kind, tag, words::numbers::byte_at(file, next)),
    })
}

// The step where a view stands.
fn viewed<'a>(view: View<'a>, tag: u8, n: usize, t: usize, kind: Kind) -> Result<Step, Refusal>
    requires { Room view.at n t }
    ensures { Takes kind n t tag view.entry.bytes.now view.entry.at result }
{
    step_at(view.bytes, view.at, tag, n, t, kind)
}

// The view at another position of its bytes.
fn moved<'a>(view: View<'a>, next: usize) -> View<'a>
    ensures { (result.bytes ≡ view.entry.bytes) × (result.at ≡ next) }
{
    View {
        bytes: view.bytes,
        at: next,
    }
}

// The fields of a film with n cells and t thicknesses, one after another, as far as the first that is refused; it answers the offset behind the last.
fn walk(file: &[u8], n: usize, t: usize, kind: Kind) -> Result<usize, Refusal>
    requires { (n ≤ 65025) × (t ≤ 66049) }
    ensures { Walks (kind_of kind n t file.now) file.now result }
{
    let mut view = View { bytes: file, at: 0 };
    let mut tag = 1;
    loop {
        let step = viewed(view, tag, n, t, kind)?;
        match step.tag {
            None => return Ok(step.next),
            Some(next) => {
                view = moved(view, step.next);
                tag = next;
            }
        }
    }
}

// The tests of a film's fields in a file, and that nothing follows them. Films that are given by their coefficients have no thicknesses: t
// does not count for them.
pub fn fields_test(file: &[u8], n: usize, t: usize, kind: Kind) -> Result<(), Refusal>
    requires { (n ≤ 65025) × (t ≤ 66049) }
    ensures { check_of result ≡ fields_check (kind_of kind n t file.now) file.now }
{
    let end = walk(file, n, t, kind)?;
    refusals::fail_if(end < file.len(), Fault::Unexpected, end)
}
