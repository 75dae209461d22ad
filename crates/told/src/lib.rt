// How a caller in C is told of a refusal: by its number in document 01's table and its place. Internal: crates `tell` and `tell_files` use it, and
// the exported calls that tell no numbers beside it.
#![tactic(auto)]

ghost use Rattle.std.specs.Prelude.{◌≡◌};
ghost use Rattle.fault.specs.Numbers.{number_of};
ghost use Rattle.model.specs.Refusals.{fail};
ghost use Rattle.model.specs.Result.{answer_of, refusal_in};
ghost use Rattle.told.specs.Refused.{Told};

use model::Refusal;

// A refusal: its place is written, and its number answered.
pub fn refused(refusal: Refusal, place: &mut usize) -> u32
    ensures { Told (fail (number_of refusal.fault) refusal.place) place.old result place.new }
{
    let fault = refusal.fault;
    *place = refusal.place;
    fault.number()
}

// The answer of a call whose results are all in its slices.
pub fn answer(answer: Result<(), Refusal>, place: &mut usize) -> u32
    ensures { Told (refusal_in (answer_of answer)) place.old result place.new }
{
    match answer {
        Ok(()) => 0,
        Err(r) => refused(r, place),
    }
}
