// The numbers of a film file whose fields have passed their tests: its weights are tested for 9, or found where the file has none, and then all are written into the
// lent buffers. Internal: the reader calls `read_fields`; that of coefficient films takes head and weights from here.
//
// Proved: answer and lent buffers are those of crate `model`, by what the test of 9, or the search, finds (`LoadsBy`).
#![tactic(auto)]

ghost use Rattle.std.specs.Prelude.{◌≡◌, ◌+◌, ◌*◌, ◌≤◌, length, take};
ghost use Rattle.model.specs.Lists.{tabulate};
ghost use Rattle.model.specs.Refusals.{pass};
ghost use Rattle.model.specs.Result.{answer_as};
ghost use Rattle.model.specs.Bytes.{word_at};
ghost use Rattle.model.specs.Fields.{part_at};
ghost use Rattle.model.specs.Coefficients.{formed};
ghost use Rattle.model.specs.Weighing.{held_check};
ghost use Rattle.model.specs.File.{steps_field, weights_offset, steps_of, weightless, gauged_in, numbers_in, gauge_in, fields_check};
ghost use Rattle.model.specs.FileCalls.{head_of, loaded_of};
ghost use Rattle.reading.specs.Reading.{Decoded, Weighs, LoadsBy};

use model::{Factors, Gauged, Head, Numbers, Refusal};

// The shape and the ceiling that stand in a file.
pub fn head_in(file: &[u8]) -> Head
    ensures { result ≡ head_of (gauge_in file.now) }
{
    Head {
        rows: words::numbers::byte_at(file, 3) as u32,
        columns: words::numbers::byte_at(file, 4) as u32,
        ceiling: words::numbers::long_at(file, 8),
    }
}

// The weights that stand in a file, into the first n places of a table.
pub fn weights_in(file: &[u8], n: usize, weights: &mut [u16])
    requires { (n ≤ length weights.old) × (n ≤ 1024) × (weights_offset + 2 * n ≤ length file.now) }
    ensures { take n weights.new ≡ tabulate n (λ i. word_at file.now (weights_offset + 2 * i)) }
{
    for i in 0..n {
        let at = 15 + 2 * i;
        weights[i] = words::numbers::first_word(&file[at..]);
    }
}

// The steps that stand behind the last field that all gauged films have; the tag there says whether the film has them.
fn steps_in(file: &[u8], at: usize) -> Option<Factors>
    requires { at ≤ 5000 }
    ensures { result ≡ steps_of (part_at steps_field file.now at) }
{
    if words::numbers::byte_at(file, at) == 10 {
        return Some(values::factors_at(file, at + 3));
    }
    None
}

// The film's weights, into a table of as many: those that stand in the file, and whether 9 passes; or those that are found, and whether they are. Called in two
// places, the search is not inlined: its tables, 34 kB, are then no part of the stack of every reading.
fn weighed(file: &[u8], numbers: Numbers, ring: &[u8], weights: &mut [u16]) -> Result<(), Refusal>
    requires { Decoded file.now numbers ring.now × (length weights.old ≡ numbers.head.rows * numbers.head.columns) }
    ensures { Weighs file.now result weights.new }
{
    let head = numbers.head;
    if headers::weightless(file) {
        match numbers.steps {
            None => {
                let plain = Factors {
                    along: 1,
                    across: 1,
                };
                return weighing::search_gauged(head, ring, plain, weights);
            }
            Some(factors) => {
                return weighing::search_gauged(head, ring, factors, weights);
            }
        }
    }
    let n = weights.len();
    weights_in(file, n, weights);
    let film = Gauged {
        head,
        weights: &weights[..],
        thicknesses: ring,
        wedge: numbers.wedge,
        steps: numbers.steps,
    };
    row_sums::dominance_test(&film)
}

// A film whose thicknesses stand in the file, into buffers that have room, where its weights pass. Until then these are in a table lent for them.
fn hand_over(
    file: &[u8],
    numbers: Numbers,
    ring: &[u8],
    words: &mut [u16],
    weights: &mut [u16],
    thicknesses: &mut [u8],
) -> Result<Numbers, Refusal>
    requires decoded { Decoded file.now numbers ring.now × (length words.old ≡ numbers.head.rows * numbers.head.columns) }
    requires buffers { (length weights.old ≡ 1024) × (length thicknesses.old ≡ 1156) }
    ensures { LoadsBy (held_check (weightless file.now) (formed (numbers_in file.now))) (gauge_in file.now) weights.old thicknesses.old (answer_as loaded_of result) weights.new thicknesses.new }
{
    weighed(file, numbers, ring, words)?;
    text::put(weights, 0, &words[..]);
    text::put_bytes(thicknesses, 0, ring);
    Ok(numbers)
}

// Reads a file whose fields have passed their tests. The lent buffers are written once its weights have passed too.
pub fn read_fields(
    file: &[u8],
    weights: &mut [u16],
    thicknesses: &mut [u8],
) -> Result<Numbers, Refusal>
    requires fields { fields_check (gauged_in file.now) file.now ≡ pass }
    requires buffers { (length weights.old ≡ 1024) × (length thicknesses.old ≡ 1156) }
    ensures { LoadsBy (held_check (weightless file.now) (formed (numbers_in file.now))) (gauge_in file.now) weights.old thicknesses.old (answer_as loaded_of result) weights.new thicknesses.new }
{
    let head = head_in(file);
    let n = shape::area(head.rows, head.columns);
    let t = shape::ring(head.rows, head.columns);
    let from = 15 + 2 * headers::carried(file, n) + 3;
    let end = from + t;
    let numbers = Numbers {
        head,
        wedge: words::numbers::signed(words::numbers::long_at(file, end + 3)),
        steps: steps_in(file, end + 3 + 4),
    };
    let mut words = [0u16; 1024];
    hand_over(
        file,
        numbers,
        &file[from..end],
        &mut words[..n],
        weights,
        thicknesses,
    )
}
