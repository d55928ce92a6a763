// The rule on neighbouring pairs, by which trains end in order, and the lowest pair that breaks it.
#![tactic(auto)]

ghost use Rattle.std.specs.Prelude.{◌≡◌, ◌+◌, ◌-◌, ◌≤◌, ◌<◌, length};
ghost use Rattle.scan.specs.Found.{found};
ghost use Rattle.yard.specs.Limits.{limits};
ghost use Rattle.yard.specs.Words.{first, tally, total, up_from};
ghost use Rattle.yard.specs.Answers.{ruled};
ghost use Rattle.pairs.specs.Pairs.{unruled_by, unruled_at, Ordering};

use std::ops::Range;
use trains::Trains;

// The rule for a pair: the second code is at least the first, and greater where the pair is a break.
fn ruled(low: u16, high: u16, broken: bool) -> bool
    ensures { result ≡ ruled low high broken }
{
    if broken { low < high } else { low <= high }
}

// The cars, with the place and the code of each.
#[derive(Clone, Copy)]
struct Cars<'a> {
    places: &'a [u16],
    codes: &'a [u16],
    ghost placed: { length places.now ≡ length codes.now },
    ghost few: { length codes.now ≤ limits.cars },
}

impl Cars<'_> {
    // Cars j and j + 1 break the rule that holds for a pair of one train.
    fn unruled(self, j: usize) -> bool
        requires { (1 ≤ j) × (j < length self.codes.now) }
        ensures { result ≡ unruled_by self.entry.places.now self.entry.codes.now j }
    {
        !ruled(
            self.codes[j - 1],
            self.codes[j],
            trains::turned(self.places, j),
        )
    }

    // How many pairs of a train break the rule.
    // A count without a way out, so that the machine looks at many pairs at once; a loop, since it did not close that a chain's `sum` fits 16 bits.
    fn unruled_pairs(self, train: &Range<usize>) -> u16
        requires { (train.now.start < train.now.end) × (train.now.end ≤ length self.codes.now) }
        ensures { result ≡ total (λ j. tally (unruled_by self.entry.places.now self.entry.codes.now j))
            (up_from (train.now.start + 1) (train.now.end - (train.now.start + 1))) }
    {
        let mut pairs = 0;
        for j in train.start + 1..train.end {
            pairs += u16::from(self.unruled(j));
        }
        pairs
    }

    // The lowest car of a train that breaks the rule with the next.
    fn unruled_in(self, train: &Range<usize>) -> Option<usize>
        requires { (train.now.start < train.now.end) × (train.now.end ≤ length self.codes.now) }
        ensures { result ≡ found train.now.end (first (unruled_by self.entry.places.now self.entry.codes.now) (train.now.end - (train.now.start + 1)) (train.now.start + 1)) }
    {
        (train.start + 1..train.end).find(|&j| self.unruled(j))
    }
}

// The lowest car that breaks the rule with the next of its train.
pub fn first_unruled(lengths: &[u16], places: &[u16], codes: &[u16]) -> Option<usize>
    requires { Ordering lengths.now places.now codes.now }
    ensures { result ≡ found (length codes.now) (first (unruled_at lengths.now places.now codes.now)
        (length codes.now - 1) 1) }
{
    let cars = Cars { places, codes };
    for train in Trains::new(lengths) {
        if 0 < cars.unruled_pairs(&train) {
            return cars.unruled_in(&train);
        }
    }
    None
}
