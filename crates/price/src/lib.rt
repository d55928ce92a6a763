// The price of a night: the timings are tested and reckoned in whole sixteenths of a second, and the price is converted once, at the end.
#![tactic(auto)]

ghost use Rattle.std.specs.Prelude.{◌≡◌, ◌^◌, ◌<◌, if◌then◌else◌};
ghost use Rattle.yard.specs.Refusals.{price_told};
ghost use Rattle.yard.specs.Price as meaning;

use yard::{CountName, Refusal, TimingName};

// The double worth k sixteenths of a second.
fn seconds(k: u64) -> f64
    requires { k < 2 ^ 53 }
    ensures { result ≡ meaning.seconds k }
{
    std::num::nearest_u64_to_f64(k) * 0.0625
}

// What a timing is worth in sixteenths of a second. A double is a timing if its whole sixteenths, 65,536 at most, lead back to its very bits:
// negative zero leads to positive zero.
fn sixteenths(x: f64) -> Option<u64>
    ensures { result ≡ (if meaning.timing x then Some (meaning.sixteenths x) else None) }
{
    let scaled = x * 16.0;
    if scaled > -1.0 && scaled < 65537.0 {
        let k = std::num::truncating_f64_to_u64(scaled);
        if f64::to_bits(seconds(k)) == f64::to_bits(x) {
            return Some(k);
        }
    }
    None
}

// The price of a night of so many steps and hump passes, at these timings: steps times pull plus passes times push, as a double.
pub fn price(steps: usize, passes: usize, timings: yard::Timings) -> Result<f64, Refusal>
    ensures { meaning.Prices steps passes timings (price_told result) }
{
    intake::in_range(CountName::Steps, 0, yard::STEPS, steps)?;
    intake::in_range(CountName::Passes, 0, yard::PASSES, passes)?;
    let pull = sixteenths(timings.pull).ok_or(Refusal::TimingNotAllowed(TimingName::Pull))?;
    let push = sixteenths(timings.push).ok_or(Refusal::TimingNotAllowed(TimingName::Push))?;
    // `as`, since Rust has no From of a usize for a u64.
    Ok(seconds(steps as u64 * pull + passes as u64 * push))
}
