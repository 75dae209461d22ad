// Numbers of 8 bytes, big-endian, at a slice's start, which has their bytes, signed, in two's complement; and written into a lent slice.
// Internal: the readers and writers of lists of numbers call it.
#![tactic(auto)]

ghost use Rattle.std.specs.Prelude.{◌≡◌, ◌+◌, ◌≤◌, length};
ghost use Rattle.std.proofs.lemmas.List.Edits.{sets};
ghost use Rattle.model.specs.Bytes.{quad_at, quad, signed_quad, unsigned_quad};

pub fn first_quad(bytes: &[u8]) -> u64
    requires { 8 ≤ length bytes.now }
    ensures { result ≡ quad_at bytes.now 0 }
{
    u64::from_be_bytes([
        bytes[0], bytes[1], bytes[2], bytes[3], bytes[4], bytes[5], bytes[6], bytes[7],
    ])
}

// The number that 64 bits stand for, and back.
pub fn signed_quad(n: u64) -> i64
    ensures { result ≡ signed_quad n }
{
    n.cast_signed()
}

pub fn unsigned_quad(z: i64) -> u64
    ensures { result ≡ unsigned_quad z }
{
    z.cast_unsigned()
}

pub fn put_quad(out: &mut [u8], at: usize, n: u64)
    requires { at + 8 ≤ length out.old }
    ensures { out.new ≡ sets out.old at (quad n) }
{
    text::put(out, at, &n.to_be_bytes());
}
