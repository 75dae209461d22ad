// Numbers, and the list of a file's weights, written into a lent slice from an offset on.
ghost use Rattle.std.specs.Prelude.{◌≡◌, ◌∷◌, ◌+◌, ◌*◌, ◌≤◌, length};
ghost use Rattle.std.proofs.lemmas.List.Edits.{sets};
ghost use Rattle.model.specs.Bytes.{word, long};
ghost use Rattle.model.specs.File.{weight_bytes};

pub fn put_word(out: &mut [u8], at: usize, n: u32)
    requires { (at + 2 ≤ length out.old) × (n ≤ 65535) }
    ensures { out.new ≡ sets out.old at (word n) }
{
    text::put(out, at, &(n as u16).to_be_bytes());
}

pub fn put_long(out: &mut [u8], at: usize, n: u32)
    requires { at + 4 ≤ length out.old }
    ensures { out.new ≡ sets out.old at (long n) }
{
    text::put(out, at, &n.to_be_bytes());
}

// A field's tag and the length of its body.
pub fn put_header(out: &mut [u8], at: usize, tag: u8, size: u32)
    requires { (at + 3 ≤ length out.old) × (size ≤ 65535) }
    ensures { out.new ≡ sets out.old at (tag ∷ word size) }
{
    let [high, low] = (size as u16).to_be_bytes();
    text::put(out, at, &[tag, high, low]);
}

// Weights as the bytes of a file.
pub fn put_weights(out: &mut [u8], at: usize, weights: &[u16])
    requires { at + 2 * length weights.now ≤ length out.old }
    ensures { out.new ≡ sets out.old at (weight_bytes weights.now) }
{
    for (i, weight) in weights.iter().enumerate() {
        put_word(out, at + 2 * i, *weight as u32);
    }
}
