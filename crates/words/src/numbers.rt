// Numbers of 1, 2 and 4 bytes at an offset of a file, big-endian, and signed ones in two's complement.
// As in model/specs/Bytes, a byte past the file's end counts as 0: what a cut-short file lacks is read as 0, and the tests of its
// fields refuse it.
ghost use Rattle.std.specs.Prelude.{◌≡◌, ◌≤◌, length};
ghost use Rattle.model.specs.Bytes.{byte_at, word_at, long_at, signed_of, unsigned_of};

pub fn byte_at(file: &[u8], at: usize) -> u8
    ensures { result ≡ byte_at file.now at }
{
    file.get(at).copied().unwrap_or(0)
}

pub fn word_at(file: &[u8], at: usize) -> u16
    requires { at ≤ 7000000 }
    ensures { result ≡ word_at file.now at }
{
    u16::from_be_bytes([byte_at(file, at), byte_at(file, at + 1)])
}

// The number at a slice's start, which has its four bytes.
pub fn first_long(bytes: &[u8]) -> u32
    requires { 4 ≤ length bytes.now }
    ensures { result ≡ long_at bytes.now 0 }
{
    u32::from_be_bytes([bytes[0], bytes[1], bytes[2], bytes[3]])
}

// Read at once where its four bytes are there.
pub fn long_at(file: &[u8], at: usize) -> u32
    requires { at ≤ 6000000 }
    ensures { result ≡ long_at file.now at }
{
    if at + 4 <= file.len() {
        return first_long(&file[at..]);
    }
    u32::from(word_at(file, at)) * 65536 + u32::from(word_at(file, at + 2))
}

// The number at a slice's start, which has its two bytes.
pub fn first_word(bytes: &[u8]) -> u16
    requires { 2 ≤ length bytes.now }
    ensures { result ≡ word_at bytes.now 0 }
{
    u16::from_be_bytes([bytes[0], bytes[1]])
}

// The number that 32 bits stand for, and back.
pub fn signed(n: u32) -> i32
    ensures { result ≡ signed_of n }
{
    n.cast_signed()
}

pub fn unsigned(z: i32) -> u32
    ensures { result ≡ unsigned_of z }
{
    z.cast_unsigned()
}
