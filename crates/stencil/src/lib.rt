// A cell's links, diagonal and source from its own thickness, the four beside it (the five-point stencil) and the factors of the film's grid steps, on
// plain values. Internal: `forming` makes a film's coefficients of it, and `row_sums` takes a cell's links.
//
// Proved: each number is document 01's (crate `model`: Coefficients), and fits its type whatever thicknesses of 8 bits and wedge number of 32 it is made of,
// with factors within their limits. What `links_of` and its callees work with has 32 bits or fewer, by their MIR (proofs/Widths).
#![tactic(auto)]

ghost use Rattle.std.specs.Prelude.{◌≡◌, cond, ◌+◌, ◌*◌, ◌≤◌};
ghost use Rattle.model.specs.Gauge.{factors_of, Stepped};
ghost use Rattle.stencil.specs.Cell.{links_by, links_of, source_of, coefficients_of};

use model::Factors;

// The thicknesses of a cell and of the four beside it, those of the boundary ring too.
#[derive(Clone, Copy)]
pub struct Around {
    pub own: u8,
    pub left: u8,
    pub right: u8,
    pub down: u8,
    pub up: u8,
}

// The links of a cell to the four beside it, those to the ring too, and their sum.
#[derive(Clone, Copy)]
pub struct Links {
    pub left: u32,
    pub right: u32,
    pub down: u32,
    pub up: u32,
    pub sum: u32,
}

#[derive(Clone, Copy)]
pub struct Coefficients {
    pub diagonal: u32,
    pub right: u32,
    pub up: u32,
    pub source: i64,
}

// What links within a row and links between rows are multiplied by: 1 and 1, unless the film has a field for them.
pub fn factors_of(steps: Option<Factors>) -> Factors
    ensures { result ≡ factors_of steps }
{
    steps.unwrap_or(Factors {
        along: 1,
        across: 1,
    })
}

// The cube of the sum of two thicknesses: at most 510 × 510 × 510.
fn cube(a: u8, b: u8) -> u32
    ensures { result ≡ (a + b) * (a + b) * (a + b) }
{
    let sum = (a as u32) + (b as u32);
    sum * sum * sum
}

// A cube times the factor of its direction: at most 4 × 510 × 510 × 510.
fn scaled(factor: u32, cubed: u32) -> u32
    requires { (factor ≤ 4) × (cubed ≤ 132651000) }
    ensures { (result ≡ factor * cubed) × (result ≤ 530604000) }
{
    factor * cubed
}

// Four links and their sum.
fn gathered(left: u32, right: u32, down: u32, up: u32) -> Links
    requires { left + right + down + up ≤ 2122416000 }
    ensures { result ≡ links_by left right down up }
{
    Links {
        left,
        right,
        down,
        up,
        sum: left + right + down + up,
    }
}

// The links of a cell: cubes, each times the factor of its direction. All of it is worked in 32 bits. Most films have no steps: their links are the
// cubes, which four products a cell would make slower.
#[tactic(auto, using(crate::proofs::Fits::cube_low))]
pub fn links_of(around: Around, factors: Factors) -> Links
    requires { Stepped factors }
    ensures { result ≡ links_of around factors }
{
    let left = cube(around.own, around.left);
    let right = cube(around.own, around.right);
    let down = cube(around.own, around.down);
    let up = cube(around.own, around.up);
    if (factors.along == 1) & (factors.across == 1) {
        return gathered(left, right, down, up);
    }
    gathered(
        scaled(factors.along, left),
        scaled(factors.along, right),
        scaled(factors.across, down),
        scaled(factors.across, up),
    )
}

// The link, if it stays in the grid; else 0.
fn link_if(inside: bool, link: u32) -> u32
    ensures { result ≡ cond inside link 0 }
{
    if inside {
        return link;
    }
    0
}

// The wedge number times what the thickness gains from the column before to the next one.
fn source_of(wedge: i32, next: u8, last: u8) -> i64
    ensures { result ≡ source_of wedge next last }
{
    (wedge as i64) * ((next as i64) - (last as i64))
}

// The coefficients of a cell; `in_row` and `in_column` say whether its right and its up link stay in the grid.
pub fn coefficients_of(
    around: Around,
    factors: Factors,
    wedge: i32,
    in_row: bool,
    in_column: bool,
) -> Coefficients
    requires { Stepped factors }
    ensures { result ≡ coefficients_of around factors wedge in_row in_column }
{
    let links = links_of(around, factors);
    Coefficients {
        diagonal: links.sum,
        right: link_if(in_row, links.right),
        up: link_if(in_column, links.up),
        source: source_of(wedge, around.right, around.left),
    }
}
