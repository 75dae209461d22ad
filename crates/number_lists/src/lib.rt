// Lists of numbers of 4 bytes and of signed numbers of 8: read from a file into a table, and written as bytes.
// Internal: the reader and the writer of coefficient film files call it.
#![tactic(auto)]

ghost use Rattle.std.specs.Prelude.{◌≡◌, ◌+◌, ◌*◌, ◌≤◌, length, take};
ghost use Rattle.std.proofs.lemmas.List.Edits.{sets};
ghost use Rattle.model.specs.Bytes.{long, listed};
ghost use Rattle.model.specs.CoefficientFile.{longs_at, signed_quads_at, source_bytes};

// The n numbers from an offset of a file on, into the first n places of a table.
pub fn longs_in(file: &[u8], at: usize, n: usize, longs: &mut [u32])
    requires { (n ≤ length longs.old) × (n ≤ 1024) × (at ≤ 1000000) × (at + 4 * n ≤ length file.now) }
    ensures { take n longs.new ≡ longs_at file.now at n }
{
    for i in 0..n {
        let from = at + 4 * i;
        longs[i] = words::numbers::first_long(&file[from..]);
    }
}

// The same of sources.
pub fn sources_in(file: &[u8], at: usize, n: usize, sources: &mut [i64])
    requires { (n ≤ length sources.old) × (n ≤ 1024) × (at ≤ 1000000) × (at + 8 * n ≤ length file.now) }
    ensures { take n sources.new ≡ signed_quads_at file.now at n }
{
    for i in 0..n {
        let from = at + 8 * i;
        sources[i] = quads::signed_quad(quads::first_quad(&file[from..]));
    }
}

// Numbers as the bytes of a file.
pub fn put_longs(out: &mut [u8], at: usize, longs: &[u32])
    requires { at + 4 * length longs.now ≤ length out.old }
    ensures { out.new ≡ sets out.old at (listed long longs.now) }
{
    for (i, number) in longs.iter().enumerate() {
        words::put::put_long(out, at + 4 * i, *number);
    }
}

// Sources as the bytes of a file.
pub fn put_sources(out: &mut [u8], at: usize, sources: &[i64])
    requires { at + 8 * length sources.now ≤ length out.old }
    ensures { out.new ≡ sets out.old at (listed source_bytes sources.now) }
{
    for (i, source) in sources.iter().enumerate() {
        quads::put_quad(out, at + 8 * i, quads::unsigned_quad(*source));
    }
}
