// One pass over a list of numbers: its sum, its largest item, a number that no item is, its first place, and the first item that is too large.
#![tactic(auto)]

ghost use Rattle.std.specs.Prelude.{◌≡◌, ◌+◌, position, ◌≤◌, not, leb, eqb, length};
ghost use Rattle.yard.specs.Limits.{limits};
ghost use Rattle.yard.specs.Words.{most, every, first};
ghost use Rattle.yard.specs.Night.{sum, item_of};
ghost use Rattle.yard.specs.Answers.{first_with};
ghost use Rattle.scan.specs.Found.{found};

// The cars of all trains together.
#[tactic(auto, using(crate::proofs::Folds::sum_from_sum))]
pub fn total(lengths: &[u16]) -> usize
    requires { length lengths.now ≤ limits.trains }
    ensures { result ≡ sum lengths.now }
{
    lengths.iter().map(|&cars| usize::from(cars)).sum()
}

// The index of the first item that is this number.
fn index_of(number: u16, items: &[u16]) -> Option<usize>
    ensures { result ≡ position (λ x. eqb x number) items.now }
{
    items.iter().position(|&item| item == number)
}

// The first place that has a number, from 1.
#[tactic(auto, using(crate::proofs::Positions::with_place))]
pub fn first_with(number: u16, items: &[u16]) -> Option<usize>
    ensures { result ≡ found (1 + length items.now) (first_with number items.now) }
{
    index_of(number, items).map(|before| before + 1)
}

// No item is this number. No branch stands in the fold, so that it takes many items at a time.
pub fn none_with(number: u16, items: &[u16]) -> bool
    ensures { result ≡ every (λ x. not (eqb x number)) items.now }
{
    items
        .iter()
        .fold(true, |none, &item| none & (item != number))
}

// The largest item, 0 where there is none: no Option, since the meaning's `most` tells it so.
#[tactic(auto, using(crate::proofs::Folds::most_from_fold))]
pub fn largest(items: &[u16]) -> u16
    ensures { result ≡ most (λ item. item) items.now }
{
    items.iter().fold(0, |most, &item| most.max(item))
}

// The index of the first item that is not below a bound.
fn index_over(items: &[u16], bound: usize) -> Option<usize>
    ensures { result ≡ position (λ x. leb bound x) items.now }
{
    items.iter().position(|&item| bound <= usize::from(item))
}

// The place of the first item that is not below a bound, from 1.
pub fn first_over(items: &[u16], bound: usize) -> Option<usize>
    ensures { result ≡ found (1 + length items.now) (first (λ k. leb bound (item_of items.now k)) (length items.now) 1) }
{
    index_over(items, bound).map(|index| index + 1)
}
