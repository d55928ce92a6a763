// Reads the card of document 01 from its input, then one of edition 2, writes each back, and tries what the reader refuses: a line for each.
// A line that can't be printed is passed over.
#![tactic(auto)]

ghost use Rattle.std.specs.Prelude.{◌≤◌, length};

use std::fmt;
use std::io::{Input, Read};
use yard::{Answer, CardAnswer, Night, Plan};

// The same card, for the trials.
const NIGHT: [u8; 16] = [
    0x12, 0x20, 0x0C, 0x06, 0x02, 0x03, 0x00, 0x60, 0x30, 0x02, 0x02, 0x80, 0x40, 0x20, 0x2D, 0x80,
];

// The same night, closed, with its derived plan: edition 2.
const CLOSED: [u8; 20] = [
    0x28, 0xC4, 0x00, 0x30, 0x03, 0x00, 0x40, 0x0C, 0x00, 0x30, 0x03, 0x00, 0x04, 0x00, 0xA0, 0x02,
    0x00, 0x21, 0x29, 0x3A,
];

// The open night as a card of edition 2, which is not its own.
const WRONG: [u8; 20] = [
    0x20, 0x84, 0x00, 0x30, 0x03, 0x00, 0x40, 0x0C, 0x00, 0x30, 0x03, 0x00, 0x04, 0x00, 0xA0, 0x02,
    0x00, 0x20, 0x2D, 0x80,
];

// The items of a list, each with a blank behind it.
#[derive(Clone, Copy)]
struct Items<'a>(&'a [u16]);

impl fmt::Display for Items<'_> {
    fn fmt<W: fmt::Write>(&self, f: &mut fmt::Formatter<W>) -> fmt::Result {
        for item in self.0 {
            write!(f, "{item} ")?;
        }
        Ok(())
    }
}

// Prints what the reader says of a card, for buffers of these sizes.
fn tried(rt: &impl Print, name: &str, bytes: &[u8], trains: usize, cars: usize, codes: usize)
    requires { (trains ≤ 8) × (cars ≤ 8) × (codes ≤ 8) }
{
    let mut lengths = [0; 8];
    let mut inbound = [0; 8];
    let mut coded = [0; 8];
    let read = card::read(
        bytes,
        &mut lengths[..trains],
        &mut inbound[..cars],
        &mut coded[..codes],
    );
    let told = CardAnswer::from(read);
    let _ = println!(rt; "{} {} {} {name}", told.number, told.a, told.b);
}

// The card with one byte changed.
fn changed(rt: &impl Print, name: &str, at: usize, byte: u8)
    requires { at ≤ 15 }
{
    let mut bytes = NIGHT;
    bytes[at] = byte;
    tried(rt, name, &bytes, 1, 6, 6);
}

// Writes the card of a plan into a longer buffer, and compares it with the one that was read.
fn written(rt: &impl Print, plan: Plan, bytes: &[u8])
    requires { length bytes.now ≤ 32 }
{
    let mut again = [255; 34];
    let told = Answer::from(card::write(plan, &mut again));
    let _ = println!(rt; "{} {} {} written", told.number, told.a, told.b);
    let (card, behind) = again.split_at(bytes.len());
    let same = if card == bytes {
        "the same bytes"
    } else {
        "other bytes"
    };
    let _ = println!(rt; "{same}");
    let kept = if behind.starts_with(&[255, 255]) {
        "and no others"
    } else {
        "and more"
    };
    let _ = println!(rt; "{kept}");
}

// Reads a card of six cars in one train, prints what it says, and writes it back.
fn back(rt: &impl Print, bytes: &[u8])
    requires { length bytes.now ≤ 32 }
{
    let mut lengths = [0; 1];
    let mut inbound = [0; 6];
    let mut codes = [0; 6];
    let told = CardAnswer::from(card::read(bytes, &mut lengths, &mut inbound, &mut codes));
    let _ = println!(rt;
        "{} {} {} {} {} {} {} {} {} read",
        told.number,
        told.a,
        told.b,
        told.mark,
        told.steps,
        told.tracks,
        told.room,
        told.cars,
        told.trains
    );
    let _ = println!(rt; "{}lengths", Items(&lengths));
    let _ = println!(rt; "{}inbound", Items(&inbound));
    let _ = println!(rt; "{}codes", Items(&codes));
    let night = Night {
        lengths: &lengths,
        inbound: &inbound,
        closed: told.mark != 0,
        tracks: told.tracks,
        room: told.room,
    };
    let plan = Plan {
        night,
        steps: told.steps,
        codes: &codes,
    };
    written(rt, plan, bytes);
}

// Each refusal of the reader, in the order of its tests.
fn refusals(rt: &impl Print) {
    tried(rt, "empty", &NIGHT[..0], 1, 6, 6);
    changed(rt, "edition 3", 0, 0x32);
    tried(rt, "four bytes", &NIGHT[..4], 1, 6, 6);
    changed(rt, "no tracks", 1, 0x00);
    tried(rt, "cut by one byte", &NIGHT[..15], 1, 6, 6);
    tried(rt, "no room for the length", &NIGHT, 0, 6, 6);
    tried(rt, "room for five inbound numbers", &NIGHT, 1, 5, 6);
    tried(rt, "room for five codes", &NIGHT, 1, 6, 5);
    changed(rt, "a train of length 0", 5, 0x00);
    changed(rt, "a train of four for six cars", 5, 0x02);
    changed(rt, "car 6 at the first place and the second", 7, 0xC0);
    changed(rt, "a padding bit set", 15, 0x81);
    let longer = [
        0x12, 0x20, 0x0C, 0x06, 0x02, 0x03, 0x00, 0x60, 0x30, 0x02, 0x02, 0x80, 0x40, 0x20, 0x2D,
        0x80, 0,
    ];
    tried(rt, "one byte more", &longer, 1, 6, 6);
}

// The refusals that edition 2 has of its own, and its limits.
fn second_refusals(rt: &impl Print) {
    tried(rt, "six bytes of edition 2", &CLOSED[..6], 1, 6, 6);
    tried(rt, "edition 2 cut by one byte", &CLOSED[..19], 1, 6, 6);
    tried(rt, "an open night that fits edition 1", &WRONG, 1, 6, 6);
    let mut tracks = CLOSED;
    tracks[1] = 0xE2;
    tried(rt, "17 tracks", &tracks, 1, 6, 6);
    let mut padded = WRONG;
    padded[19] = 0x81;
    tried(rt, "a padding bit set before the edition", &padded, 1, 6, 6);
}

// Reads standard input to its end, or as much as there is room for, and tells how many bytes came.
fn input(rt: &impl Input, card: &mut [u8]) -> usize
    ensures { result ≤ length card.new }
{
    let mut reader = rt.reader();
    let mut bytes = 0;
    // Until nothing comes: std's `read_exact` does not tell how much came before that.
    while bytes < card.len() {
        match reader.read(&mut card[bytes..]) {
            Ok(0) | Err(_) => break,
            Ok(n) => bytes += n,
        }
    }
    bytes
}

fn main(rt: HostRuntime) {
    let mut card = [0; 32];
    let bytes = input(&rt, &mut card);
    back(&rt, &card[..bytes]);
    refusals(&rt);
    back(&rt, &CLOSED);
    second_refusals(&rt);
}
