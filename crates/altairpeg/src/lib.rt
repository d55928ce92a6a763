// The face: every public call under one roof, under the names by which C, Rust and Python link it.
// None asks anything of its caller, and each promise is that of the call behind it; an outcome is told as a number and its details.
// include/altairpeg.h tells the same to C, whose lists and counts stand in the order of the header.
// A mark comes from C as a number: 0 is open, and any other is closed, so that no number is left without a meaning.
#![tactic(auto)]

ghost use Rattle.std.specs.Prelude.{◌≡◌};
ghost use Rattle.yard.specs.Night.{plan_given, night_given, closed_by};
ghost use Rattle.yard.specs.Limits.{limits};
ghost use Rattle.yard.specs.Codes.{fewest_tracks};
ghost use Rattle.yard.specs.Calls.{Derives, Checks, Replays};
ghost use Rattle.yard.specs.Card.{Reads, Writes};
ghost use Rattle.yard.specs.Price.{Prices};
ghost use Rattle.yard.specs.Lent.{the_night, the_plan};
ghost use Rattle.fewest.specs.Fewest.{FindsFewest};

use yard::{Answer, CardAnswer, Counts, Night, Plan, PriceAnswer, Timings};

// The night that a caller lends by its lists, its mark and its counts.
fn night<'a>(lengths: &'a [u16], inbound: &'a [u16], mark: usize, counts: Counts) -> Night<'a>
    ensures { the_night result ≡ night_given lengths.now inbound.now (closed_by mark) counts }
{
    Night {
        lengths,
        inbound,
        closed: mark != 0,
        tracks: counts.tracks,
        room: counts.room,
    }
}

// The plan that a caller lends by its lists, its mark and its counts.
fn plan<'a>(
    lengths: &'a [u16],
    inbound: &'a [u16],
    codes: &'a [u16],
    mark: usize,
    counts: Counts,
) -> Plan<'a>
    ensures { the_plan result ≡ plan_given lengths.now inbound.now codes.now (closed_by mark) counts }
{
    Plan {
        night: night(lengths, inbound, mark, counts),
        steps: counts.steps,
        codes,
    }
}

// Derive: the plan of a night with the fewest steps, its codes into the lent buffer, its steps and passes as the answer.
#[unsafe(no_mangle)]
pub extern "C" fn altairpeg_derive(
    lengths: &[u16],
    inbound: &[u16],
    mark: usize,
    counts: Counts,
    codes: &mut [u16],
) -> Answer
    ensures { Derives (night_given lengths.now inbound.now (closed_by mark) counts) counts.steps
        codes.old result codes.new }
{
    derive::derive(night(lengths, inbound, mark, counts), counts.steps, codes).into()
}

// Fewest passes: of all codes of the given steps that build the trains, in a closed night without code 0, those with the fewest passes, the
// smallest list among equals, into the lent buffer, the steps and passes as the answer.
#[unsafe(no_mangle)]
pub extern "C" fn altairpeg_fewest_passes(
    lengths: &[u16],
    inbound: &[u16],
    mark: usize,
    counts: Counts,
    codes: &mut [u16],
) -> Answer
    ensures { FindsFewest (night_given lengths.now inbound.now (closed_by mark) counts) counts.steps
        codes.old result codes.new }
{
    fewest::fewest_passes(night(lengths, inbound, mark, counts), counts.steps, codes).into()
}

// Check: a plan offered by anyone, accepted or refused by its replay.
#[unsafe(no_mangle)]
pub extern "C" fn altairpeg_check(
    lengths: &[u16],
    inbound: &[u16],
    codes: &[u16],
    mark: usize,
    counts: Counts,
) -> Answer
    ensures { Checks (plan_given lengths.now inbound.now codes.now (closed_by mark) counts) result }
{
    plans::check(plan(lengths, inbound, codes, mark, counts)).into()
}

// Replay: each car's track and place at a stage into the lent buffers, and the passes up to it as the answer.
#[unsafe(no_mangle)]
pub extern "C" fn altairpeg_replay(
    lengths: &[u16],
    inbound: &[u16],
    codes: &[u16],
    mark: usize,
    counts: Counts,
    stage: usize,
    on: &mut [u16],
    at: &mut [u16],
) -> Answer
    ensures { Replays (plan_given lengths.now inbound.now codes.now (closed_by mark) counts) stage
        on.old at.old result on.new at.new }
{
    plans::replay(plan(lengths, inbound, codes, mark, counts), stage, on, at).into()
}

// Read: the lengths, inbound numbers and codes of a card of either edition into the lent buffers, and its mark and numbers as the answer.
#[unsafe(no_mangle)]
pub extern "C" fn altairpeg_read(
    card: &[u8],
    lengths: &mut [u16],
    inbound: &mut [u16],
    codes: &mut [u16],
) -> CardAnswer
    ensures { Reads card.now lengths.old inbound.old codes.old result
        lengths.new inbound.new codes.new }
{
    card::read(card, lengths, inbound, codes).into()
}

// Write: the one card of a plan into the lent buffer, and its length as the answer.
#[unsafe(no_mangle)]
pub extern "C" fn altairpeg_write(
    lengths: &[u16],
    inbound: &[u16],
    codes: &[u16],
    mark: usize,
    counts: Counts,
    card: &mut [u8],
) -> Answer
    ensures { Writes (plan_given lengths.now inbound.now codes.now (closed_by mark) counts)
        card.old result card.new }
{
    card::write(plan(lengths, inbound, codes, mark, counts), card).into()
}

// Price: steps times pull plus passes times push, as an exact double.
#[unsafe(no_mangle)]
pub extern "C" fn altairpeg_price(steps: usize, passes: usize, timings: Timings) -> PriceAnswer
    ensures { Prices steps passes timings result }
{
    price::price(steps, passes, timings).into()
}

// The fewest tracks on which a car with this code is never pulled early.
#[unsafe(no_mangle)]
pub extern "C" fn altairpeg_fewest_tracks(code: u16) -> usize
    ensures { result ≡ fewest_tracks limits.steps code }
{
    codes::fewest_tracks(code)
}
