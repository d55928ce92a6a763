// Check and replay: a plan offered by anyone is accepted exactly if its replay is good, its lists and codes being well formed.
#![tactic(auto)]

ghost use Rattle.std.specs.Prelude.{◌≡◌, ◌∷◌, [], ◌+◌, ◌≤◌, length};
ghost use Rattle.yard.specs.Limits.{limits};
ghost use Rattle.yard.specs.Lent.{the_plan};
ghost use Rattle.yard.specs.Answers.{says, verdict};
ghost use Rattle.yard.specs.Calls.{Checks, Replays};
ghost use Rattle.yard.specs.Demands.{Listed};
ghost use Rattle.yard.specs.Refusals.{test_told, check_told, count_told};
ghost use Rattle.scan.specs.Found.{found};
ghost use Rattle.sorting.specs.Sums.{set_below, fullest_of};
ghost use Rattle.plans.specs.Worked.{given_tests, first_pair, pair_test, Counted, placed_tests, Placeable, Placed};

use sorting::Pulls;
use yard::{Checked, CountName, ListName, Plan, Refusal};

// 2, 3 and 4: the lists of a plan.
fn given(plan: Plan) -> Result<(), Refusal>
    requires { (length plan.night.lengths.now ≤ limits.trains) × (length plan.night.inbound.now ≤ limits.cars) }
    ensures { test_told result ≡ verdict (given_tests plan.entry.night.lengths.now plan.entry.night.inbound.now plan.entry.codes.now)
        (says 0 0 0) }
{
    let night = plan.night;
    lists::lists(night.lengths, night.inbound)?;
    intake::list(ListName::Codes, plan.codes.len() == night.inbound.len())
}

// A plan whose counts and lists have passed their tests, with one code for each car.
#[derive(Clone, Copy)]
struct Formed<'a> {
    plan: Plan<'a>,
    ghost counted: { Counted plan.night.lengths.now plan.night.inbound.now plan.codes.now },
    ghost listed: { Listed plan.night.lengths.now plan.night.inbound.now },
}

impl<'a> Formed<'a> {
    // The lowest car that breaks the rule with the next. The places of the cars go to a list of N.
    fn first_pair_by<const N: usize>(self) -> Option<usize>
        requires { (length self.plan.night.inbound.now ≤ N) × (N ≤ limits.cars) }
        ensures { result ≡ found (length self.entry.plan.codes.now)
            (first_pair self.entry.plan.night.lengths.now self.entry.plan.night.inbound.now self.entry.plan.codes.now) }
    {
        let night = self.plan.night;
        let mut places = [0u16; N];
        let places = &mut places[..];
        trains::places(night.inbound, places);
        pairs::first_unruled(
            night.lengths,
            &places[..self.plan.codes.len()],
            self.plan.codes,
        )
    }

    // The same with a list that is short where it does: to clear a long one would cost a short night more than the rest.
    fn first_pair(self) -> Option<usize>
        ensures { result ≡ found (length self.entry.plan.codes.now)
            (first_pair self.entry.plan.night.lengths.now self.entry.plan.night.inbound.now self.entry.plan.codes.now) }
    {
        if self.plan.codes.len() <= yard::FIRST_CARS {
            self.first_pair_by::<{ yard::FIRST_CARS }>()
        } else {
            self.first_pair_by::<{ yard::CARS }>()
        }
    }

    // 9: the trains in order, or else the lowest second car of a pair that breaks the rule; then the passes and the fullest pull.
    fn ordered(self, pulls: Pulls) -> Result<Checked, Refusal>
        requires { (pulls.codes.now ≡ self.plan.codes.now) × (pulls.steps ≡ self.plan.steps) }
        ensures { check_told result ≡ verdict
            (pair_test self.entry.plan.night.lengths.now self.entry.plan.night.inbound.now self.entry.plan.codes.now ∷ [])
            (says 0 (length self.entry.plan.codes.now + set_below self.entry.plan.steps self.entry.plan.codes.now)
            (fullest_of self.entry.plan.codes.now self.entry.plan.steps)) }
    {
        if let Some(car) = self.first_pair() {
            return Err(Refusal::TrainsOutOfOrder(car + 1));
        }
        Ok(Checked {
            passes: pulls.passes(pulls.steps),
            fullest: pulls.fullest,
        })
    }
}

// A plan is accepted exactly if its lists and codes are well formed and its replay keeps the destinations of a closed night clear until
// the first pull, pulls no car early, overfills no track and builds every train in order.
pub fn check(plan: Plan) -> Result<Checked, Refusal>
    ensures { Checks (the_plan plan.entry) (check_told result) }
{
    intake::night_counts(yard::LIMITS, plan.night, plan.steps)?;
    given(plan)?;
    let pulls = Pulls::of(plan.codes, plan.steps);
    sound::sound(plan.night, pulls)?;
    Formed { plan }.ordered(pulls)
}

// 2, 3 and 4: the lists of a plan, and two buffers of these sizes.
fn placed(plan: Plan, on: usize, at: usize) -> Result<(), Refusal>
    requires { (length plan.night.lengths.now ≤ limits.trains) × (length plan.night.inbound.now ≤ limits.cars) }
    ensures { test_told result ≡ verdict
        (placed_tests plan.entry.night.lengths.now plan.entry.night.inbound.now plan.entry.codes.now on at) (says 0 0 0) }
{
    given(plan)?;
    let cars = plan.night.inbound.len();
    intake::list(ListName::Tracks, cars <= on)?;
    intake::list(ListName::Places, cars <= at)
}

// Each car's track and place at a stage, written into the two buffers. The cars are ordered in a list of N.
fn stand_by<const N: usize>(plan: Plan, stage: usize, on: &mut [u16], at: &mut [u16])
    requires { Placeable plan.night.lengths.now plan.night.inbound.now plan.codes.now plan.night.tracks plan.steps stage on.old at.old
        × (length plan.night.inbound.now ≤ N) × (N ≤ limits.cars) }
    ensures { Placed plan.entry.night.lengths.now plan.entry.night.inbound.now plan.entry.codes.now plan.entry.night.tracks
        plan.entry.steps stage on.old at.old on.new at.new }
{
    let night = plan.night;
    let mut list = [0u16; N];
    let list = &mut list[..];
    let order = &mut list[..night.inbound.len()];
    order::sort(night.inbound, plan.codes, stage, order);
    stage::tracks(plan, stage, on);
    stage::places(order, on, night.tracks + night.lengths.len(), at);
}

// The same with a list that is short where it does.
fn stand(plan: Plan, stage: usize, on: &mut [u16], at: &mut [u16])
    requires { Placeable plan.night.lengths.now plan.night.inbound.now plan.codes.now plan.night.tracks plan.steps stage on.old at.old }
    ensures { Placed plan.entry.night.lengths.now plan.entry.night.inbound.now plan.entry.codes.now plan.entry.night.tracks
        plan.entry.steps stage on.old at.old on.new at.new }
{
    if plan.night.inbound.len() <= yard::FIRST_CARS {
        stand_by::<{ yard::FIRST_CARS }>(plan, stage, on, at);
    } else {
        stand_by::<{ yard::CARS }>(plan, stage, on, at);
    }
}

// Where each car of a plan stands at a stage, and the passes up to there; the buffers are written only where the replay is good.
pub fn replay(plan: Plan, stage: usize, on: &mut [u16], at: &mut [u16]) -> Result<usize, Refusal>
    ensures { Replays (the_plan plan.entry) stage on.old at.old (count_told result) on.new at.new }
{
    let night = plan.night;
    intake::night_counts(yard::LIMITS, night, plan.steps)?;
    intake::in_range(CountName::Stage, 0, plan.steps, stage)?;
    placed(plan, on.len(), at.len())?;
    let pulls = Pulls::of(plan.codes, plan.steps);
    sound::sound(night, pulls)?;
    stand(plan, stage, on, at);
    Ok(pulls.passes(stage))
}
