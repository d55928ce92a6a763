// The fewest passes for a given number of steps: of all codes that build the trains those with the fewest set bits, and of those the
// list that is smallest at the first differing car.
#![tactic(auto)]

ghost use Rattle.std.specs.Prelude.{length};
ghost use Rattle.yard.specs.Limits.{first_limits};
ghost use Rattle.yard.specs.Lent.{the_night};
ghost use Rattle.yard.specs.Calls.{DeriveGiven};
ghost use Rattle.yard.specs.Refusals.{plan_told};
ghost use Rattle.fewest.specs.Fewest.{FindsFewest};
ghost use Rattle.fewest.specs.Found.{Found};

use yard::{Derived, Night, Refusal};

// 5 or 6 for the codes found, or else their steps and passes, with the codes written.
fn plan(night: Night, steps: usize, codes: &mut [u16]) -> Result<Derived, Refusal>
    requires { DeriveGiven first_limits (the_night night) steps (length codes.old) }
    ensures { Found (the_night night.entry) steps codes.old (plan_told result) codes.new }
{
    let mut found = [0u16; yard::FIRST_CARS];
    let needed = derive::needed(night, &mut found);
    if steps < needed {
        return Err(Refusal::LimitTooLow(needed));
    }
    let found = &mut found[..night.inbound.len()];
    blocks::find(night, steps, found);
    derive::settle(night.room, steps, found, codes)
}

// Finds the codes of a night and a given number of steps with the fewest passes: they go to the lent buffer, and their steps and passes
// are answered.
pub fn fewest_passes(night: Night, steps: usize, codes: &mut [u16]) -> Result<Derived, Refusal>
    ensures { FindsFewest (the_night night.entry) steps codes.old (plan_told result) codes.new }
{
    derive::given(yard::FIRST_LIMITS, night, steps, codes.len())?;
    plan(night, steps, codes)
}
