// The tests of what comes from outside: counts, and the lengths of lists and buffers, each refused as document 01 says.
#![tactic(auto)]

ghost use Rattle.std.specs.Prelude.{◌≡◌, ◌++◌, ◌^◌, ◌≤◌, length, take, drop};
ghost use Rattle.yard.specs.Answers.{says, test, verdict, count_test, list_test};
ghost use Rattle.yard.specs.Calls.{count_tests, night_counts};
ghost use Rattle.yard.specs.Lent.{the_night};
ghost use Rattle.yard.specs.Refusals.{refused, test_told, detail_of_count, detail_of_list};

use yard::{CountName, Limits, ListName, Night, Refusal, Sizes};

// Passed where this is so, or else refused for this reason.
pub fn ensure(so: bool, refusal: Refusal) -> Result<(), Refusal>
    ensures { test_told result ≡ test so (refused refusal) }
{
    if so { Ok(()) } else { Err(refusal) }
}

// 1: a count from low to high, or else refused by its name.
pub fn in_range(name: CountName, low: usize, high: usize, x: usize) -> Result<(), Refusal>
    ensures { test_told result ≡ count_test (detail_of_count name) low high x }
{
    ensure((low..=high).contains(&x), Refusal::CountOutOfRange(name))
}

// 1: the five counts of a call that keeps to these limits, in the order of their details.
pub fn counts(most: Limits, sizes: Sizes) -> Result<(), Refusal>
    ensures { test_told result ≡ verdict (count_tests most sizes.cars sizes.trains sizes.tracks sizes.room sizes.steps) (says 0 0 0) }
{
    in_range(CountName::Cars, 1, most.cars, sizes.cars)?;
    in_range(CountName::Trains, 1, most.trains, sizes.trains)?;
    in_range(CountName::Tracks, 1, most.tracks, sizes.tracks)?;
    in_range(CountName::Room, 1, most.room, sizes.room)?;
    in_range(CountName::Steps, 0, most.steps, sizes.steps)
}

// 1: the counts of a night, and its steps or step limit.
pub fn night_counts(most: Limits, night: Night, steps: usize) -> Result<(), Refusal>
    ensures { test_told result ≡ verdict (night_counts most (the_night night.entry) steps) (says 0 0 0) }
{
    counts(most, night.sizes(steps))
}

// 4: a list or a buffer of the right length, or else refused by its name.
pub fn list(name: ListName, right: bool) -> Result<(), Refusal>
    ensures { test_told result ≡ list_test (detail_of_list name) right }
{
    ensure(right, Refusal::ListOrBufferWrong(name))
}

// 2 to the k.
pub fn power(k: usize) -> usize
    requires { k ≤ 16 }
    ensures { result ≡ 2 ^ k }
{
    1 << k
}

// Copies the first `count` items of a list to the front of a buffer. By a loop, since std's `copy_from_slice` of a length that is known only at run
// time would have the archive call the C library's `memmove`; and never inlined, since beside an array of the caller's own LLVM would see that the
// two lists lie apart, and make the loop such a call.
#[inline(never)]
pub fn copy(items: &[u16], count: usize, out: &mut [u16])
    requires { (count ≤ length items.now) × (count ≤ length out.old) }
    ensures { out.new ≡ take count items.now ++ drop count out.old }
{
    for (i, &item) in items[..count].iter().enumerate() {
        out[i] = item;
    }
}
