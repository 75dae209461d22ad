// Text written into a lent slice from an offset on: bytes, and numbers in decimal. Internal: the calls that write files and reports
// call it. Each writer of text answers the place after what it wrote.
//
// Proved: the slice then holds exactly the text that crate `model` defines (Writes), and no other place of it has changed.
#![tactic(auto)]

ghost use Rattle.std.specs.Prelude.{◌≡◌, [], ◌∷◌, ◌+◌, ◌≤◌, length};
ghost use Rattle.std.proofs.lemmas.List.Edits.{sets};
ghost use Rattle.model.specs.Report.{decimal, signed};
ghost use Rattle.text.specs.Writes.{Fits, Writes};

// In ASCII.
const ZERO: u64 = 48;

pub fn put_byte(out: &mut [u8], at: usize, byte: u8) -> usize
    requires { Fits (byte ∷ []) out.old at }
    ensures { Writes (byte ∷ []) out.old at out.new result }
{
    out[at] = byte;
    at + 1
}

// A list of whatever elements in place of as many, from an offset on.
pub fn put<T: Copy>(out: &mut [T], at: usize, items: &[T])
    requires { at + length items.now ≤ length out.old }
    ensures { out.new ≡ sets out.old at items.now }
{
    let end = at + items.len();
    out[at..end].copy_from_slice(items);
}

// Bytes go one by one: as a block that is copied they would make an archive for C need `memmove` from outside.
pub fn put_bytes(out: &mut [u8], at: usize, bytes: &[u8]) -> usize
    requires { Fits bytes.now out.old at }
    ensures { Writes bytes.now out.old at out.new result }
{
    for i in 0..bytes.len() {
        out[at + i] = bytes[i];
    }
    at + bytes.len()
}

// A number in decimal: the digits before the last, and the last.
pub fn put_decimal(out: &mut [u8], at: usize, n: u64) -> usize
    requires { Fits (decimal n) out.old at }
    ensures { Writes (decimal n) out.old at out.new result }
{
    if n < 10 {
        return put_byte(out, at, (ZERO + n) as u8);
    }
    let next = put_decimal(out, at, n / 10);
    put_byte(out, next, (ZERO + n % 10) as u8)
}

// A signed number: a minus sign stands before those below 0.
pub fn put_signed(out: &mut [u8], at: usize, n: i64) -> usize
    requires { Fits (signed n) out.old at }
    ensures { Writes (signed n) out.old at out.new result }
{
    if n < 0 {
        let next = put_byte(out, at, b'-');
        return put_decimal(out, next, cell::negative_part(n));
    }
    put_decimal(out, at, cell::positive_part(n))
}
