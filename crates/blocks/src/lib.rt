// The codes for the blocks of the trains: of the codes that a night allows those with which all cars together have the fewest set bits, and
// of those the smallest, car by car.
#![tactic(auto)]

ghost use Rattle.std.specs.Prelude.{map, ◌^◌, ◌≤◌, length};
ghost use Rattle.std.specs.Int.Count.{ones};
ghost use Rattle.yard.specs.Codes.{allowed_codes};
ghost use Rattle.yard.specs.Limits.{first_limits};
ghost use Rattle.yard.specs.Demands.{Within};
ghost use Rattle.scan.specs.Front.{Under, Front};
ghost use Rattle.choice.specs.Choice.{picks_most};
ghost use Rattle.blocks.specs.Trains.{Weighed, Blocked, Costs, Chosen, AllBlocked, AllChosen, Coded};

use trains::Trains;
use yard::Night;

// Writes how many bits of each code are set: the passes that a car with it takes beyond its first.
fn set_bits(codes: &[u16], into: &mut [u16])
    requires { length codes.now ≤ length into.old }
    ensures { Front (map (λ x. ones x) codes.now) into.old (length codes.now) into.new }
{
    // By index, since of a zip with iter_mut the proof does not know what was written: tried, it did not close.
    for (i, &code) in codes.iter().enumerate() {
        into[i] = sorting::ones(code);
    }
}

// Counts, from a table of zeros, the cars of each block by their numbers.
fn weigh(numbers: &[u16], weights: &mut [u16])
    requires { (length numbers.now ≤ first_limits.cars) × Under (length weights.old) numbers.now × Under 1 weights.old }
    ensures { Weighed (length weights.old) numbers.now weights.new }
{
    for &block in numbers {
        weights[usize::from(block)] += 1;
    }
}

// Puts in the place of each car's block the number of a code, so that the train's cars cost least.
fn train(costs: &[u16], picks: &mut [u8], numbers: &mut [u16])
    requires { Costs costs.now × (picks_most ≤ length picks.old) × Blocked (length costs.now) numbers.old }
    ensures { Chosen costs.now numbers.old numbers.new }
{
    let blocks = usize::from(numbers[numbers.len() - 1]) + 1;
    let mut weights = [0u16; codes::CODES];
    weigh(numbers, &mut weights[..blocks]);
    let mut chosen = [0u16; codes::CODES];
    choice::choose(&weights[..blocks], costs, picks, &mut chosen);
    derive::look_up(&chosen[..blocks], numbers);
}

// The same train by train: no pair joins two trains, so each has its own cheapest numbers.
fn trains(lengths: &[u16], costs: &[u16], numbers: &mut [u16])
    requires { Costs costs.now × AllBlocked lengths.now (length costs.now) numbers.old }
    ensures { AllChosen lengths.now costs.now numbers.old numbers.new }
{
    let mut picks = [0u8; choice::PICKS];
    for cars in Trains::new(lengths) {
        train(costs, &mut picks, &mut numbers[cars]);
    }
}

// Puts in the place of each car's block its code: of these codes, such that those of all cars together have the fewest set bits.
fn give(lengths: &[u16], allowed: &[u16], numbers: &mut [u16])
    requires { (length allowed.now ≤ 2 ^ first_limits.steps) × Under (2 ^ first_limits.steps) allowed.now
        × AllBlocked lengths.now (length allowed.now) numbers.old }
    ensures { Coded lengths.now allowed.now numbers.old numbers.new }
{
    let mut costs = [0u16; codes::CODES];
    set_bits(allowed, &mut costs);
    trains(lengths, &costs[..allowed.len()], numbers);
    derive::look_up(allowed, numbers);
}

// The same with the codes that a night allows.
pub fn find(night: Night, steps: usize, numbers: &mut [u16])
    requires { Within 1 first_limits.tracks night.tracks × (steps ≤ first_limits.steps)
        × AllBlocked night.lengths.now (length (allowed_codes night.closed night.tracks steps)) numbers.old }
    ensures { Coded night.entry.lengths.now (allowed_codes night.entry.closed night.entry.tracks steps) numbers.old numbers.new }
{
    let mut table = [0u16; codes::CODES];
    let allowed = codes::lend_allowed(night.closed, night.tracks, steps, &mut table);
    give(night.lengths, allowed, numbers);
}
