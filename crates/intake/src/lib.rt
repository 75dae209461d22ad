// What a reader has, laid into a lent buffer.
#![tactic(auto)]

ghost use Rattle.std.specs.Prelude.{◌≡◌, ◌≤◌, length, take, IfOk, IfSome};

use std::io;
use std::io::Read;

// Reads until the buffer is full or the reader is at its end, and answers how many bytes it put at the buffer's start: the reader's first, as
// many as there is room for.
pub fn fill<R: Read>(reader: &mut R, bytes: &mut [u8]) -> io::Result<usize>
    ensures within { IfOk result (λ n. n ≤ length bytes.new) }
    ensures first { IfOk result (λ n. IfSome (R.remaining reader.old) (λ xs. take n bytes.new ≡ take (length bytes.new) xs)) }
{
    let mut done = 0;
    while done < bytes.len() {
        let n = reader.read(&mut bytes[done..])?;
        if n == 0 {
            break;
        }
        done += n;
    }
    Ok(done)
}
