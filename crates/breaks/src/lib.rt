// The breaks of a night: how many come before each car in its train, and the most in one train.
#![tactic(auto)]

ghost use Rattle.std.specs.Prelude.{◌≤◌, ◌<◌, length};
ghost use Rattle.yard.specs.Limits.{limits};
ghost use Rattle.yard.specs.Demands.{Listed};
ghost use Rattle.breaks.specs.Numbers.{Train, Countable, Numbers};

use std::ops::Range;
use trains::Trains;

// The most cars of a night that is worked on in the shortest lists.
pub const SHORT: usize = 64;

// Writes the breaks before each car of the train behind the first cars and up to an end, and answers the breaks in it. They are
// counted in the machine's own width, which is quicker than 16 bits.
fn train(places: &[u16], cars: Range<usize>, into: &mut [u16]) -> usize
    requires { (cars.start < cars.end) × (cars.end ≤ limits.cars) × (cars.end ≤ length places.now) × (cars.end ≤ length into.old) }
    ensures { Train places.now cars.start cars.end into.old result into.new }
{
    into[cars.start] = 0;
    let mut breaks: usize = 0;
    // By index: a pair of places is read and a third list written at each, so that windows in a zip would be no plainer.
    for car in cars.start + 1..cars.end {
        breaks += usize::from(trains::turned(places, car));
        // Fewer than the cars, so that they fit.
        into[car] = breaks as u16;
    }
    breaks
}

// Writes the breaks before each car in its train, by car, and answers the most in one train. The places of the cars stand in a list of this length.
fn numbers_with<const PLACES: usize>(lengths: &[u16], inbound: &[u16], into: &mut [u16]) -> usize
    requires { Countable lengths.now inbound.now PLACES (length into.old) × (PLACES ≤ limits.cars) }
    ensures { Numbers lengths.now inbound.now result into.new }
{
    let mut places = [0u16; PLACES];
    trains::places(inbound, &mut places);
    let mut most: usize = 0;
    for cars in Trains::new(lengths) {
        most = most.max(train(&places, cars, into));
    }
    most
}

// The same with a list of places no longer than it must be: to clear a long one would cost a short night more than the rest.
pub fn numbers(lengths: &[u16], inbound: &[u16], into: &mut [u16]) -> usize
    requires { Listed lengths.now inbound.now × (length inbound.now ≤ limits.cars) × (length inbound.now ≤ length into.old) }
    ensures { Numbers lengths.now inbound.now result into.new }
{
    if inbound.len() <= SHORT {
        numbers_with::<SHORT>(lengths, inbound, into)
    } else if inbound.len() <= yard::FIRST_CARS {
        numbers_with::<{ yard::FIRST_CARS }>(lengths, inbound, into)
    } else {
        numbers_with::<{ yard::CARS }>(lengths, inbound, into)
    }
}
