// Each car's track and place at a stage, from its code and the order in which the cars stand.
#![tactic(auto)]

ghost use Rattle.std.specs.Prelude.{◌≡◌, map, ◌%◌, ◌≤◌, ◌<◌, length};
ghost use Rattle.yard.specs.Limits.{limits};
ghost use Rattle.yard.specs.Night.{cars, item_of};
ghost use Rattle.yard.specs.Demands.{Within};
ghost use Rattle.scan.specs.Front.{Front};
ghost use Rattle.stage.specs.Stages.{target_of, InTurn, track_by, place_by, Trackable, Standable};

use trains::Trains;
use yard::Plan;

// A track for each step, and one more.
const TURNS: usize = yard::STEPS + 1;

// The sorting tracks and the destinations, and those of a night within document 01's limits.
const ALL_TRACKS: usize = yard::TRACKS + yard::TRAINS;

const FIRST_ALL_TRACKS: usize = yard::FIRST_TRACKS + yard::FIRST_TRAINS;

// A stage of a plan: the steps of the plan, the first of them that is still to come, and the sorting track of each, which use the tracks in turn.
#[derive(Clone, Copy)]
struct Stage<'a> {
    turns: &'a [u16],
    tracks: usize,
    steps: usize,
    stage: usize,
    ghost few: { steps ≤ limits.steps },
    ghost within: { stage ≤ steps },
    ghost room: { steps < length turns.now },
    ghost in_turn: { InTurn tracks steps turns.now },
}

impl<'a> Stage<'a> {
    // The track on which a car with this code, bound for this destination, stands at the stage.
    // The track of its next step is looked up even where there is none, so that the machine need not guess.
    fn target(self, code: u16, destination: u16) -> u16
        ensures { result ≡ target_of (λ step. step % self.entry.tracks) self.entry.steps self.entry.stage code destination }
    {
        if self.steps <= self.stage {
            return destination;
        }
        let next = sorting::early::next_step(code, self.steps, self.stage);
        let track = self.turns[next];
        if self.steps <= next {
            return destination;
        }
        track
    }

    // The tracks of the cars of one train at the stage, from their codes.
    fn train_tracks(self, codes: &[u16], destination: u16, on: &mut [u16])
        requires { length codes.now ≡ length on.old }
        ensures { on.new ≡
            map (λ code. target_of (λ step. step % self.entry.tracks) self.entry.steps self.entry.stage code destination) codes.now }
    {
        // By index, since of a zip with iter_mut the proof does not know what was written: tried, it did not close.
        for (i, &code) in codes.iter().enumerate() {
            on[i] = self.target(code, destination);
        }
    }
}

// The sorting track of each of the first steps, which use the tracks in turn.
fn turns(tracks: usize, turns: &mut [u16])
    requires { Within 1 limits.tracks tracks }
    ensures { InTurn tracks (length turns.old) turns.new }
{
    for (step, track) in turns.iter_mut().enumerate() {
        // Below the number of tracks, so that it fits.
        *track = (step % tracks) as u16;
    }
}

// Each car's track at a stage, train by train, so that no car has to be asked for its train.
pub fn tracks(plan: Plan, stage: usize, on: &mut [u16])
    requires { Trackable plan.night.lengths.now plan.codes.now plan.night.tracks plan.steps stage on.old }
    ensures { Front (map (track_by plan.entry.night.lengths.now plan.entry.codes.now plan.entry.night.tracks plan.entry.steps stage)
        (cars (length plan.entry.codes.now))) on.old (length plan.entry.codes.now) on.new }
{
    let tracks = plan.night.tracks;
    let lengths = plan.night.lengths;
    let mut by_step = [0u16; TURNS];
    turns(tracks, &mut by_step[..plan.steps]);
    let at = Stage {
        turns: &by_step,
        tracks,
        steps: plan.steps,
        stage,
    };
    for (t, cars) in Trains::new(lengths).enumerate() {
        // Among all tracks, so that it fits.
        let destination = (tracks + t) as u16;
        at.train_tracks(
            &plan.codes[cars.start..cars.end],
            destination,
            &mut on[cars.start..cars.end],
        );
    }
}

// Each car's place on its track, where all tracks are below N, from the order in which the cars stand and their tracks.
fn places_among<const N: usize>(order: &[u16], on: &[u16], at: &mut [u16])
    requires { Standable order.now on.now N at.old }
    ensures { Front (map (place_by order.now (item_of on.now)) (cars (length order.now)))
        at.old (length order.now) at.new }
{
    let mut standing = [0u16; N];
    for &car in order {
        let i = usize::from(car) - 1;
        let track = usize::from(on[i]);
        at[i] = standing[track];
        standing[track] += 1;
    }
}

// Each car's place on its track, where all tracks are below a number; few tracks are counted in a small array, so that less is zeroed.
pub fn places(order: &[u16], on: &[u16], all: usize, at: &mut [u16])
    requires { Standable order.now on.now all at.old }
    ensures { Front (map (place_by order.now (item_of on.now)) (cars (length order.now)))
        at.old (length order.now) at.new }
{
    if all <= FIRST_ALL_TRACKS {
        places_among::<FIRST_ALL_TRACKS>(order, on, at);
    } else {
        places_among::<ALL_TRACKS>(order, on, at);
    }
}
