// The header of a field in a film file: tag and length, and whether the body is there; and whether field 03 has the film's weights. Internal: the fields of
// every kind of file call it, and the readers.
//
// Proved: what is found is what crate `model` says of a header (`field_at`), at every offset of every file, and of the weights (`weightless`, `carried`).
#![tactic(auto)]

ghost use Rattle.std.specs.Prelude.{◌≡◌, ◌≤◌};
ghost use Rattle.model.specs.Refusals.{check_of};
ghost use Rattle.model.specs.Fields.{field_at};
ghost use Rattle.model.specs.File.{weightless as weightless_in, carried as carried_of};

use fault::Fault;
use model::Refusal;

// Refusals 1, 2 and 3: a header at `at`, with that tag and that length, and the whole body after it.
pub fn header_test(file: &[u8], at: usize, tag: u8, size: usize) -> Result<(), Refusal>
    requires { (at ≤ 6000000) × (size ≤ 1000000) }
    ensures { check_of result ≡ field_at file.now at tag size }
{
    let end = file.len();
    refusals::fail_if(end < at + 3, Fault::Truncated, end)?;
    let from = at + 1;
    let length = words::numbers::first_word(&file[from..]) as usize;
    refusals::fail_if(file[at] != tag, Fault::Unexpected, at)?;
    refusals::fail_if(length != size, Fault::WrongLength, at)?;
    refusals::fail_if(end < at + 3 + size, Fault::Truncated, end)
}

// Whether a file leaves the weights to the program: the length of field 03, which stands behind shape and ceiling, is 0.
pub fn weightless(file: &[u8]) -> bool
    ensures { result ≡ weightless_in file.now }
{
    words::numbers::word_at(file, 13) == 0
}

// As many of n weights as the file has: all, or none.
pub fn carried(file: &[u8], n: usize) -> usize
    ensures { result ≡ carried_of file.now n }
{
    if weightless(file) {
        return 0;
    }
    n
}
