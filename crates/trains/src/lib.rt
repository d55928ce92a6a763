// The trains of a night: the cars of each, the place of each car in the inbound list, and which pairs are breaks.
#![tactic(auto)]

ghost use Rattle.std.specs.Prelude.{◌≡◌, map, ◌+◌, ◌≤◌, ◌<◌, length};
ghost use Rattle.yard.specs.Limits.{limits};
ghost use Rattle.yard.specs.Words.{place};
ghost use Rattle.yard.specs.Night.{cars, sum};
ghost use Rattle.yard.specs.Demands.{EachOnce};
ghost use Rattle.scan.specs.Front.{Front};
ghost use Rattle.trains.specs.Walk.{ranges};
ghost use Rattle.trains.specs.Turned.{turned};

use std::ops::Range;

// The trains of a night, one after the other, each as the range of its cars: their indexes in car order. Walks over the trains of a night go by
// this.
#[derive(Drop)]
pub struct Trains<'a> {
    lengths: &'a [u16],
    before: usize,
    ghost within: { before + sum lengths.now ≤ limits.cars },
}

impl<'a> Trains<'a> {
    ghost use Rattle.trains.specs.Ranges.{ranges_left};

    pub fn new(lengths: &'a [u16]) -> Trains<'a>
        requires { sum lengths.now ≤ limits.cars }
        ensures { ranges_left result ≡ ranges 0 lengths.now }
    {
        Trains { lengths, before: 0 }
    }
}

impl<'a> Iterator for Trains<'a> {
    ghost use Rattle.std.specs.Iterator.{YieldsFirst, item_count};
    ghost use Rattle.trains.specs.Ranges.{ranges_left};

    type Item = Range<usize>;

    ghost next_gives = { YieldsFirst ranges_left };

    ghost remaining = { item_count ranges_left };

    fn next(&mut self) -> Option<Range<usize>> {
        let (&length, others) = self.lengths.split_first()?;
        let from = self.before;
        let to = from + usize::from(length);
        self.lengths = others;
        self.before = to;
        Some(from..to)
    }
}

// The place of each car in the inbound list, from 0, in car order.
pub fn places(inbound: &[u16], into: &mut [u16])
    requires { (length inbound.now ≤ length into.old) × (length inbound.now ≤ limits.cars) × EachOnce inbound.now }
    ensures { Front (map (λ car. place car inbound.now) (cars (length inbound.now)))
        into.old (length inbound.now) into.new }
{
    for (i, &car) in inbound.iter().enumerate() {
        // One of at most 4,096 places, so that it fits.
        into[usize::from(car) - 1] = i as u16;
    }
}

// Car j + 1 comes in before car j, by their places: a pair of one train is then a break.
pub fn turned(places: &[u16], j: usize) -> bool
    requires { (1 ≤ j) × (j < length places.now) }
    ensures { result ≡ turned places.now j }
{
    places[j] < places[j - 1]
}
