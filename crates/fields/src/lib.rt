// One field of a film file, of either kind, as the reader tests it: header, tag, length, presence of the body, values. The tag byte that
// stands in the file is matched once, and chooses the one permitted length of the body, the test of its values and so where the next field
// stands. Internal: the walk along a file calls it.
//
// Proved: what a field's test finds is what crate `model` says of the field with that tag, and where it passes the next field stands
// behind this one (`Tries`), at every offset of every file. Values are tested once the whole body is there (crate `values`); so no file that
// is cut short needs a case of its own.
#![tactic(auto)]

ghost use Rattle.std.specs.Prelude.{◌≡◌, ◌+◌, ◌≤◌, length};
ghost use Rattle.model.specs.Fields.{Field};
ghost use Rattle.fields.specs.Tags.{field_for, Finds, Tries, Room};

use model::Refusal;

// A field of so many bytes, from its header and, where that passes, the test of the values in its body, which stands in the file whole by then.
fn tested<F: Fn(usize) -> Result<(), Refusal>>(
    file: &[u8],
    at: usize,
    tag: u8,
    size: usize,
    values: F,
) -> Result<usize, Refusal>
    requires room { (at ≤ 5000000) × (size ≤ 1000000) }
    requires callable { at + 3 + size ≤ length file.now → F.pre values (at + 3) }
    ensures { (f : Field) → f.size ≡ size → Finds f file.now at (F.post values (at + 3)) → Tries f tag file.now at result }
{
    headers::header_test(file, at, tag, size)?;
    values(at + 3)?;
    Ok(at + 3 + size)
}

// The test of the field that should have that tag, at an offset; it answers where the next field stands. The byte that stands there chooses which field is tested. The values of
// fields 06 to 09 are not tested where they stand, since coefficients are tested once all of them are there; a byte that no field has as its tag is
// tested as one of 0 bytes.
pub fn field_test(file: &[u8], at: usize, tag: u8, n: usize, t: usize) -> Result<usize, Refusal>
    requires { Room at n t }
    ensures { Tries (field_for file.now tag n t) tag file.now at result }
{
    match words::numbers::byte_at(file, at) {
        1 => tested(file, at, tag, 2, |from| values::shape_values(file, from)),
        2 => tested(file, at, tag, 4, |from| values::ceiling_values(file, from)),
        3 => {
            let has = headers::carried(file, n);
            tested(
                file,
                at,
                tag,
                2 * has,
                |from| values::weight_values(file, from, has),
            )
        }
        4 => tested(
            file,
            at,
            tag,
            t,
            |from| values::thickness_values(file, from, t),
        ),
        5 => tested(file, at, tag, 4, |from| values::wedge_values(file, from)),
        6..=8 => tested(file, at, tag, 4 * n, |_| Ok(())),
        9 => tested(file, at, tag, 8 * n, |_| Ok(())),
        10 => tested(file, at, tag, 2, |from| values::steps_values(file, from)),
        0 | 11..=255 => tested(file, at, tag, 0, |_| Ok(())),
    }
}
