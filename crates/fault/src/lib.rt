// Why a call is refused, and the refusal's number in the documents' tables (specs/Numbers). A crate of its own below `model`, so that what is
// checked there anew for each must-fail edit of a definition is definitions and their laws alone.
#![tactic(auto)]

ghost use Rattle.std.specs.Prelude.{◌≡◌};
ghost use Rattle.fault.specs.Numbers.{number_of};

#[derive(Clone, Copy)]
pub enum Fault {
    Truncated,
    Unexpected,
    WrongLength,
    BadShape,
    BadCeiling,
    ZeroWeight,
    BadThickness,
    BadWedge,
    NotDominant,
    WrongBuffer,
    BadOrder,
    StartAboveCeiling,
    OutOfGrid,
    BadCoefficient,
    BadStep,
    NoWeights,
    WeightsNotFound,
}

impl Fault {
    // The number by which the report and callers in C know it.
    pub fn number(self) -> u32
        ensures { result ≡ number_of self }
    {
        match self {
            Fault::Truncated => 1,
            Fault::Unexpected => 2,
            Fault::WrongLength => 3,
            Fault::BadShape => 4,
            Fault::BadCeiling => 5,
            Fault::ZeroWeight => 6,
            Fault::BadThickness => 7,
            Fault::BadWedge => 8,
            Fault::NotDominant => 9,
            Fault::WrongBuffer => 10,
            Fault::BadOrder => 11,
            Fault::StartAboveCeiling => 12,
            Fault::OutOfGrid => 13,
            Fault::BadCoefficient => 14,
            Fault::BadStep => 15,
            Fault::NoWeights => 16,
            Fault::WeightsNotFound => 17,
        }
    }
}
