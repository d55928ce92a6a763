// Runs trial nights of document 01, and nights of document 02's requests, through derive, check and replay to a stage: a line for
// each, with the number, A, B, what then stands at the front of each lent buffer, and the night's name.
// The buffers hold 77 everywhere before each call. A line that can't be printed is passed over.
#![tactic(auto)]

ghost use Rattle.std.specs.Prelude.{◌≤◌};

use std::fmt;
use yard::{Answer, Night, Plan};

// An answer as a line has it: its number, A and B, each with a blank behind it.
#[derive(Clone, Copy)]
struct Told(Answer);

impl fmt::Display for Told {
    fn fmt<W: fmt::Write>(&self, f: &mut fmt::Formatter<W>) -> fmt::Result {
        let Answer { number, a, b } = self.0;
        write!(f, "{number} {a} {b} ")
    }
}

// The items of a list, each with a blank behind it.
#[derive(Clone, Copy)]
struct Items<'a>(&'a [u16]);

impl fmt::Display for Items<'_> {
    fn fmt<W: fmt::Write>(&self, f: &mut fmt::Formatter<W>) -> fmt::Result {
        for item in self.0 {
            write!(f, "{item} ")?;
        }
        Ok(())
    }
}

// Derives a night within a limit, and writes the answer, so many items of the buffer, and the night's name.
fn derived(rt: &impl Print, name: &str, night: Night, limit: usize, shown: usize)
    requires { shown ≤ 512 }
{
    let mut codes = [77; 512];
    let told = Told(derive::derive(night, limit, &mut codes).into());
    let codes = Items(&codes[..shown]);
    let _ = println!(rt; "{told}- {codes}{name}");
}

// Checks a plan, and writes the answer and the plan's name.
fn checked(rt: &impl Print, name: &str, plan: Plan) {
    let told = Told(plans::check(plan).into());
    let _ = println!(rt; "{told}{name}");
}

// Replays a plan to a stage, and writes the answer, seven items of each buffer, and the plan's name.
fn staged(rt: &impl Print, name: &str, plan: Plan, stage: usize) {
    let mut on = [77; 8];
    let mut at = [77; 8];
    let told = Told(plans::replay(plan, stage, &mut on, &mut at).into());
    let on = Items(&on[..7]);
    let at = Items(&at[..7]);
    let _ = println!(rt; "{told}- {on}- {at}{name}");
}

// An open night on two tracks, with room for 512.
fn open<'a>(lengths: &'a [u16], inbound: &'a [u16]) -> Night<'a> {
    Night {
        lengths,
        inbound,
        closed: false,
        tracks: 2,
        room: 512,
    }
}

fn closed(night: Night) -> Night {
    Night {
        closed: true,
        ..night
    }
}

// The night N.
fn night_n() -> Night<'static> {
    open(&[6], &[3, 6, 1, 5, 2, 4])
}

fn one_car() -> Night<'static> {
    open(&[1], &[1])
}

// A plan of a night, where each track has the most room.
fn plan<'a>(night: Night<'a>, steps: usize, codes: &'a [u16]) -> Plan<'a> {
    let night = Night {
        room: yard::ROOM,
        ..night
    };
    Plan {
        night,
        steps,
        codes,
    }
}

// The derived plan of case 1: checked, and replayed to each stage and past the last.
fn good_plan(rt: &impl Print) {
    let derived = plan(night_n(), 2, &[0, 0, 1, 1, 2, 3]);
    checked(rt, "1: the derived plan", derived);
    staged(rt, "2: stage 0", derived, 0);
    staged(rt, "3: stage 1", derived, 1);
    staged(rt, "the end", derived, 2);
    staged(rt, "past the end", derived, 3);
}

// Case 6, the plan that builds a train wrong, and cases 11 and 12.
fn wrong_plans(rt: &impl Print) {
    let wrong = plan(night_n(), 2, &[0, 0, 0, 1, 2, 3]);
    checked(rt, "6: car 3 with code 0", wrong);
    staged(rt, "6: the end", wrong, 2);
    checked(rt, "11: code 4 on two tracks", plan(one_car(), 3, &[4]));
    checked(rt, "12: 1 1", plan(open(&[2], &[1, 1]), 1, &[0, 0]));
}

// Request #101: a number met before is told with its first listing, one out of range with 0.
fn listings(rt: &impl Print) {
    let codes = [0; 5];
    let twice = open(&[5], &[2, 1, 3, 1, 3]);
    checked(rt, "101: 2 1 3 1 3", plan(twice, 1, &codes));
    let beyond = open(&[5], &[2, 1, 6, 6, 3]);
    checked(rt, "101: 2 1 6 6 3", plan(beyond, 1, &codes));
}

// Request #103: the night N, closed: derived, checked, and replayed to the first and the last stage.
fn closed_night(rt: &impl Print) {
    let night = closed(night_n());
    derived(rt, "103: N closed", night, 8, 7);
    let plan = plan(night, 3, &[1, 1, 2, 2, 3, 5]);
    checked(rt, "103: the derived plan", plan);
    staged(rt, "103: stage 0", plan, 0);
    staged(rt, "103: the end", plan, 3);
}

// Request #103: one car alone, closed; then zero codes, where 7 comes before 14 and 14 before 8, and the same plan open.
fn zero_codes(rt: &impl Print) {
    let alone = closed(one_car());
    derived(rt, "103: one car", alone, 8, 2);
    derived(rt, "103: one car, limit 0", alone, 0, 2);
    let some = plan(closed(night_n()), 2, &[1, 1, 0, 1, 0, 3]);
    staged(rt, "103: cars 3 and 5 with code 0", some, 0);
    let two_cars = open(&[2], &[1, 2]);
    checked(rt, "103: 0 2, one step", plan(closed(two_cars), 1, &[0, 2]));
    checked(
        rt,
        "103: 4 0, three steps",
        plan(closed(two_cars), 3, &[4, 0]),
    );
    checked(rt, "103: 4 0, open", plan(two_cars, 3, &[4, 0]));
}

// The night N on other tracks, and cases 7 and 8.
fn small_nights(rt: &impl Print) {
    let night = night_n();
    derived(rt, "1: N", night, 8, 7);
    derived(rt, "4: N on one track", Night { tracks: 1, ..night }, 8, 7);
    derived(rt, "5: N with room for 2", Night { room: 2, ..night }, 8, 7);
    derived(rt, "5: N with room for 3", Night { room: 3, ..night }, 8, 7);
    derived(rt, "7: one car", one_car(), 8, 2);
    derived(rt, "8: 2 1, two trains", open(&[1, 1], &[2, 1]), 8, 3);
    derived(rt, "8: 2 1, one train", open(&[2], &[2, 1]), 8, 3);
}

// Derives the night of n cars that come in reversed, one train, within the limit 8.
fn reversed(rt: &impl Print, name: &str, n: u16, tracks: usize, shown: usize)
    requires { (n ≤ 512) × (shown ≤ 512) }
{
    let mut inbound = [0; 512];
    for (place, car) in inbound.iter_mut().zip((1..=n).rev()) {
        *place = car;
    }
    let lengths = [n];
    let night = Night {
        tracks,
        ..open(&lengths, &inbound[..usize::from(n)])
    };
    derived(rt, name, night, 8, shown);
}

fn main(rt: HostRuntime) {
    good_plan(&rt);
    wrong_plans(&rt);
    listings(&rt);
    closed_night(&rt);
    zero_codes(&rt);
    small_nights(&rt);
    reversed(&rt, "9: seven reversed", 7, 2, 8);
    reversed(&rt, "10: eight reversed", 8, 2, 9);
    reversed(&rt, "10: eight reversed on three tracks", 8, 3, 9);
    let one_track = Night {
        tracks: 1,
        ..night_n()
    };
    derived(&rt, "13: N on one track, limit 2", one_track, 2, 7);
    reversed(&rt, "14: 257 reversed on eight tracks", 257, 8, 4);
    reversed(&rt, "14: 256 reversed on eight tracks", 256, 8, 10);
    reversed(&rt, "512 reversed on one track", 512, 1, 4);
}
