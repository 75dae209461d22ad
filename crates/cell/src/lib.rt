// One cell by value: its diagonal, its neighbours' pull and its source, with slack, required pressure and raise.
// Internal: other crates of Film call it. Signed numbers stay here: beyond these functions a source is two naturals, and the
// slack is a difference of two.
//
// Proved: each function equals document 01's definition (crate `model`), within limits that leave every sum room.
#![tactic(auto)]

ghost use Rattle.std.specs.Prelude.{◌≡◌, ◌≤◌, ◌*◌, ◌^◌};
ghost use Rattle.std.proofs.Math.IntN.{sub_ℕ};
ghost use Rattle.model.specs.Integers.{positive_part, negative_part};
ghost use Rattle.model.specs.Film.{slack_of};
ghost use Rattle.model.specs.Relaxation.{required_for};
ghost use Rattle.pointwise.specs.Relaxation.{raise_to};
ghost use Rattle.cell.specs.Cell.{Bounded, positive_terms, negative_terms};

// How far a signed number is above 0.
pub fn positive_part(source: i64) -> u64
    ensures { result ≡ positive_part source }
{
    source.max(0) as u64
}

// How far a signed number is below 0.
pub fn negative_part(source: i64) -> u64
    ensures { result ≡ negative_part source }
{
    source.min(0).unsigned_abs()
}

// The signed difference of two numbers.
pub fn difference(a: u64, b: u64) -> i64
    requires { (a ≤ 2 ^ 62) × (b ≤ 2 ^ 62) }
    ensures { result ≡ sub_ℕ a b }
{
    a as i64 - b as i64
}

// The whole product of two numbers.
pub fn product(a: u32, b: u32) -> u64
    ensures { result ≡ a * b }
{
    u64::from(a) * u64::from(b)
}

#[derive(Clone, Copy)]
pub struct Cell {
    pub diagonal: u32,
    pub pull: u64,
    pub source: i64,
}

impl Cell {
    // The positive terms of the cell's slack at a pressure, and the negative ones: the slack is their difference.
    #[tactic(auto, using(crate::proofs::Limits::source_kept), unfolding(crate::specs::Cell::positive_terms))]
    fn positive_terms(self, pressure: u32) -> u64
        requires { Bounded self }
        ensures { result ≡ positive_terms self pressure }
    {
        product(self.diagonal, pressure) + positive_part(self.source)
    }

    #[tactic(auto, using(crate::proofs::Limits::source_kept), unfolding(crate::specs::Cell::negative_terms))]
    fn negative_terms(self) -> u64
        requires { Bounded self }
        ensures { result ≡ negative_terms self }
    {
        self.pull + negative_part(self.source)
    }

    // The slack at a pressure.
    pub fn slack(self, pressure: u32) -> i64
        requires { Bounded self }
        ensures { result ≡ slack_of self.diagonal self.pull self.source pressure }
    {
        difference(self.positive_terms(pressure), self.negative_terms())
    }

    // The least whole pressure, not below 0, at which the slack is not negative.
    pub fn required(self) -> u64
        requires { Bounded self }
        ensures { result ≡ required_for self.diagonal self.pull self.source }
    {
        let positive = self.positive_terms(0);
        let negative = self.negative_terms();
        let diagonal = self.diagonal as u64;
        if negative <= positive {
            return 0;
        }
        (negative - positive + (diagonal - 1)) / diagonal
    }

    // The pressure that a relaxation would lift the cell to, the ceiling left aside: 0 if it is quiet, so that nobody compares again.
    // It divides only if the slack is negative. The positive terms stand first: the compiler then adds the pull last, for which a run
    // of raises waits, cell by cell.
    pub fn raise(self, pressure: u32) -> u64
        requires { Bounded self }
        ensures { result ≡ raise_to (required_for self.diagonal self.pull self.source) pressure }
    {
        if self.positive_terms(pressure) >= self.negative_terms() {
            return 0;
        }
        self.required()
    }
}
