// The tests of the lists that come from outside: trains, the inbound list and codes, each refused as document 01 says.
#![tactic(auto)]

ghost use Rattle.std.specs.Prelude.{◌≡◌, ◌≤◌, length, unwrap_or};
ghost use Rattle.yard.specs.Limits.{limits};
ghost use Rattle.yard.specs.Answers.{says, verdict, train_test, sum_test, first_listing, inbound_test, code_test, zero_test};
ghost use Rattle.yard.specs.Refusals.{test_told};
ghost use Rattle.lists.specs.Tests.{list_tests};

use yard::Refusal;

// 2: no train of length 0, or else the first such train.
pub fn trains(lengths: &[u16]) -> Result<(), Refusal>
    ensures { test_told result ≡ train_test lengths.now }
{
    match scan::first_with(0, lengths) {
        Some(train) => Err(Refusal::EmptyTrain(train)),
        None => Ok(()),
    }
}

// 2: lengths that add up to n, or else refused with 0.
pub fn sum(lengths: &[u16], n: usize) -> Result<(), Refusal>
    requires { length lengths.now ≤ limits.trains }
    ensures { test_told result ≡ sum_test lengths.now n }
{
    intake::ensure(scan::total(lengths) == n, Refusal::LengthsNotAdding)
}

// The place at which the number at a bad place is first listed; none for a number out of range.
fn first_listing(inbound: &[u16], place: usize) -> Option<usize>
    requires { (1 ≤ place) × (place ≤ length inbound.now) }
    ensures { unwrap_or result 0 ≡ first_listing inbound.now place }
{
    let car = inbound[place - 1];
    if !(1..=inbound.len()).contains(&usize::from(car)) {
        return None;
    }
    scan::first_with(car, inbound)
}

// 3: each car once, or else the first place with a number out of range or met before, and where that number is first listed. Only a
// list that is refused is searched for it.
pub fn inbound(inbound: &[u16]) -> Result<(), Refusal>
    requires { length inbound.now ≤ limits.cars }
    ensures { test_told result ≡ inbound_test inbound.now }
{
    match marks::first_bad(inbound) {
        Some(place) => Err(Refusal::InboundWrong {
            place,
            listed: first_listing(inbound, place),
        }),
        None => Ok(()),
    }
}

// 7: each code below 2 to the steps, or else the first car with another. The largest code tells at once that there is none to look for.
pub fn codes(codes: &[u16], steps: usize) -> Result<(), Refusal>
    requires { steps ≤ limits.steps }
    ensures { test_told result ≡ code_test steps codes.now }
{
    let bound = intake::power(steps);
    if usize::from(scan::largest(codes)) < bound {
        return Ok(());
    }
    match scan::first_over(codes, bound) {
        Some(car) => Err(Refusal::CodeTooLarge(car)),
        None => Ok(()),
    }
}

// 14: no code 0 in a closed night, or else the first car with it. Only where there is one is it looked for.
pub fn zeros(codes: &[u16], closed: bool) -> Result<(), Refusal>
    ensures { test_told result ≡ zero_test closed codes.now }
{
    if !closed {
        return Ok(());
    }
    if scan::none_with(0, codes) {
        return Ok(());
    }
    match scan::first_with(0, codes) {
        Some(car) => Err(Refusal::ZeroCode(car)),
        None => Ok(()),
    }
}

// 2 and 3: the lengths, then the inbound list.
pub fn lists(lengths: &[u16], inbound: &[u16]) -> Result<(), Refusal>
    requires { (length lengths.now ≤ limits.trains) × (length inbound.now ≤ limits.cars) }
    ensures { test_told result ≡ verdict (list_tests lengths.now inbound.now) (says 0 0 0) }
{
    trains(lengths)?;
    sum(lengths, inbound.len())?;
    self::inbound(inbound)
}
