// From a night and a step limit to the one derived plan: its steps, its passes, and the code of each car.
#![tactic(auto)]

ghost use Rattle.std.specs.Prelude.{◌≡◌, map, ◌*◌, ◌≤◌, length, get_or};
ghost use Rattle.yard.specs.Codes.{code_number};
ghost use Rattle.yard.specs.Derived.{steps_needed, derived_plan};
ghost use Rattle.yard.specs.Limits.{limits};
ghost use Rattle.yard.specs.Answers.{says, verdict};
ghost use Rattle.yard.specs.Calls.{DeriveGiven, Derives};
ghost use Rattle.yard.specs.Lent.{the_night};
ghost use Rattle.yard.specs.Refusals.{test_told, plan_told};
ghost use Rattle.scan.specs.Front.{Under};
ghost use Rattle.derive.specs.Plans.{first_tests, Giveable, Needy, Needs, Settles, Planned};

use sorting::Pulls;
use yard::{Derived, Limits, ListName, Night, Refusal};

// Puts item number q of a list in the place of each number q.
pub fn look_up(items: &[u16], numbers: &mut [u16])
    requires { Under (length items.now) numbers.old }
    ensures { numbers.new ≡ map (λ q. get_or items.now q 0) numbers.old }
{
    for number in numbers.iter_mut() {
        *number = items[usize::from(*number)];
    }
}

// Puts the allowed code number q in the place of each number q, by way of a table of N codes.
fn give_by<const N: usize>(night: Night, steps: usize, numbers: &mut [u16])
    requires { Giveable night.closed night.tracks steps N numbers.old × (N ≤ 2 * limits.cars) }
    ensures { numbers.new ≡ map (code_number night.entry.closed night.entry.tracks steps) numbers.old }
{
    let mut table = [0u16; N];
    let allowed = codes::lend_allowed(night.closed, night.tracks, steps, &mut table);
    look_up(allowed, numbers);
}

// The same with a table that is short where it does: to clear a long one would cost a short night more than the rest.
fn give(night: Night, steps: usize, numbers: &mut [u16])
    requires { Giveable night.closed night.tracks steps (2 * limits.cars) numbers.old }
    ensures { numbers.new ≡ map (code_number night.entry.closed night.entry.tracks steps) numbers.old }
{
    if steps <= yard::FIRST_STEPS {
        return give_by::<{ codes::CODES }>(night, steps, numbers);
    }
    give_by::<{ codes::MOST_CODES }>(night, steps, numbers)
}

// Writes the breaks before each car in its train, by car, and answers the fewest steps that the night needs.
pub fn needed(night: Night, into: &mut [u16]) -> usize
    requires { Needy night.lengths.now night.inbound.now night.tracks (length into.old) }
    ensures { Needs night.entry.lengths.now night.entry.inbound.now night.entry.closed night.entry.tracks result into.new }
{
    let most = breaks::numbers(night.lengths, night.inbound, into);
    codes::fewest_steps(night.tracks, most + usize::from(night.closed))
}

// 6 for the codes of a plan, or else its steps and passes, with the codes written.
pub fn settle(
    room: usize,
    steps: usize,
    derived: &[u16],
    codes: &mut [u16],
) -> Result<Derived, Refusal>
    requires { (steps ≤ limits.steps) × (length derived.now ≤ limits.cars) × (length derived.now ≤ length codes.old) }
    ensures { Settles room steps derived.now codes.old (plan_told result) codes.new }
{
    let pulls = Pulls::of(derived, steps);
    if let Some(step) = pulls.first_above(room) {
        return Err(Refusal::TrackOverfilled {
            step,
            cars: pulls.pull(step),
        });
    }
    intake::copy(derived, derived.len(), codes);
    Ok(Derived {
        steps,
        passes: pulls.passes(steps),
    })
}

// 5 or 6 for the derived plan, or else its steps and passes, with its codes written. They are worked out in a list of N cars.
fn plan_by<const N: usize>(
    night: Night,
    limit: usize,
    codes: &mut [u16],
) -> Result<Derived, Refusal>
    requires { DeriveGiven limits (the_night night) limit (length codes.old) × (length night.inbound.now ≤ N) × (N ≤ limits.cars) }
    ensures { Planned (derived_plan (the_night night.entry)) (steps_needed (the_night night.entry)) limit
        codes.old (plan_told result) codes.new }
{
    let mut list = [0u16; N];
    let list = &mut list[..];
    let steps = needed(night, list);
    if limit < steps {
        return Err(Refusal::LimitTooLow(steps));
    }
    let derived = &mut list[..night.inbound.len()];
    give(night, steps, derived);
    settle(night.room, steps, derived, codes)
}

// The same with a list that is no longer than it must be.
fn plan(night: Night, limit: usize, codes: &mut [u16]) -> Result<Derived, Refusal>
    requires { DeriveGiven limits (the_night night) limit (length codes.old) }
    ensures { Planned (derived_plan (the_night night.entry)) (steps_needed (the_night night.entry)) limit
        codes.old (plan_told result) codes.new }
{
    let cars = night.inbound.len();
    if cars <= breaks::SHORT {
        return plan_by::<{ breaks::SHORT }>(night, limit, codes);
    }
    if cars <= yard::FIRST_CARS {
        return plan_by::<{ yard::FIRST_CARS }>(night, limit, codes);
    }
    plan_by::<{ yard::CARS }>(night, limit, codes)
}

// The tests 1 to 4 of a night, its step limit and the size of the buffer, for a call that keeps to these limits; they ask nothing of its mark.
pub fn given(most: Limits, night: Night, limit: usize, size: usize) -> Result<(), Refusal>
    requires { (most.trains ≤ limits.trains) × (most.cars ≤ limits.cars) }
    ensures { test_told result ≡ verdict (first_tests most (the_night night.entry) limit size) (says 0 0 0) }
{
    intake::night_counts(most, night, limit)?;
    lists::lists(night.lengths, night.inbound)?;
    intake::list(ListName::Codes, night.inbound.len() <= size)
}

// Derives the plan of a night within a step limit: its codes go to the lent buffer.
pub fn derive(night: Night, limit: usize, codes: &mut [u16]) -> Result<Derived, Refusal>
    ensures { Derives (the_night night.entry) limit codes.old (plan_told result) codes.new }
{
    given(yard::LIMITS, night, limit, codes.len())?;
    plan(night, limit, codes)
}
