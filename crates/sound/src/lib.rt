// The tests of a plan's replay that its codes alone can break, worked out from the codes.
#![tactic(auto)]

ghost use Rattle.std.specs.Prelude.{◌≡◌, ◌≤◌, ◌<◌};
ghost use Rattle.yard.specs.Limits.{limits};
ghost use Rattle.yard.specs.Answers.{says, verdict};
ghost use Rattle.yard.specs.Demands.{CodesBelow};
ghost use Rattle.yard.specs.Refusals.{test_told};
ghost use Rattle.sorting.specs.Worked.{wait_test, full_test};
ghost use Rattle.sound.specs.Worked.{sound_tests};

use sorting::Pulls;
use sorting::early::EarlyPull;
use yard::{Night, Refusal};

// 8: no car pulled early, or else the lowest car of the first such step.
fn early(codes: &[u16], tracks: usize, steps: usize) -> Result<(), Refusal>
    requires { (0 < tracks) × (steps ≤ limits.steps) }
    ensures { test_told result ≡ wait_test tracks steps codes.now }
{
    match sorting::early::first_early(codes, tracks, steps) {
        Some(EarlyPull { step, car }) => Err(Refusal::CarPulledEarly { car, step }),
        None => Ok(()),
    }
}

// 8 for codes below 2 to the steps: the fewest tracks of each code come first, and the search only where a code needs more than there are.
fn kept(pulls: Pulls, tracks: usize) -> Result<(), Refusal>
    requires { (0 < tracks) × CodesBelow pulls.steps pulls.codes.now }
    ensures { test_told result ≡ wait_test tracks pulls.entry.steps pulls.entry.codes.now }
{
    match codes::first_wider(pulls.codes, tracks, pulls.steps) {
        Some(_) => early(pulls.codes, tracks, pulls.steps),
        None => Ok(()),
    }
}

// 6: no track overfilled, or else the first such step and its cars.
fn full(pulls: Pulls, room: usize) -> Result<(), Refusal>
    ensures { test_told result ≡ full_test room pulls.entry.steps pulls.entry.codes.now }
{
    match pulls.first_above(room) {
        Some(step) => Err(Refusal::TrackOverfilled {
            step,
            cars: pulls.pull(step),
        }),
        None => Ok(()),
    }
}

// 7, 14, 8 and 6: what the codes alone can break.
pub fn sound(night: Night, pulls: Pulls) -> Result<(), Refusal>
    requires { 0 < night.tracks }
    ensures { test_told result ≡ verdict (sound_tests night.entry.closed night.entry.tracks night.entry.room pulls.entry.steps
        pulls.entry.codes.now) (says 0 0 0) }
{
    lists::codes(pulls.codes, pulls.steps)?;
    lists::zeros(pulls.codes, night.closed)?;
    kept(pulls, night.tracks)?;
    full(pulls, night.room)
}
