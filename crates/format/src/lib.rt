// The format of a card in numbers: the widths of its edition's fields, and where its lists stand. An edition is a number here, as on the card,
// since the reader tells one that no card has too.
#![tactic(auto)]

ghost use Rattle.std.specs.Prelude.{◌≡◌};
ghost use Rattle.yard.specs.Night.{sum};
ghost use Rattle.yard.specs.Card.{limits_of, head_widths, head_length, card_length, fits_first, edition_for};
ghost use Rattle.format.specs.Format.{Narrow, Laid, Bounded, places_of};

use yard::{Head, Layout, Limits, Sizes};

// Where the lists of a card begin, and where its last field ends, in bits.
#[derive(Clone, Copy)]
pub struct Places {
    pub lengths: usize,
    pub inbound: usize,
    pub codes: usize,
    pub end: usize,
}

// The widths of an edition's fields.
#[tactic(auto, unfolding(yard::specs::Card::layout))]
pub fn layout_of(edition: usize) -> Layout
    ensures { Laid edition result }
{
    match edition {
        1 => Layout {
            mark: 0,
            steps: 4,
            tracks: 4,
            room: 10,
            cars: 10,
            trains: 7,
            number: 10,
        },
        _ => Layout {
            mark: 1,
            steps: 5,
            tracks: 5,
            room: 13,
            cars: 13,
            trains: 9,
            number: 13,
        },
    }
}

// The limits of an edition's counts.
#[tactic(auto, unfolding(yard::specs::Card::limits_of))]
pub fn limits_of(edition: usize) -> Limits
    ensures { result ≡ limits_of edition }
{
    match edition {
        1 => yard::FIRST_LIMITS,
        _ => yard::LIMITS,
    }
}

// Whether counts keep to edition 1's limits.
fn fits_first(sizes: Sizes) -> bool
    ensures { result ≡ fits_first sizes.cars sizes.trains sizes.tracks sizes.room sizes.steps }
{
    sizes.cars <= yard::FIRST_CARS
        && sizes.trains <= yard::FIRST_TRAINS
        && sizes.tracks <= yard::FIRST_TRACKS
        && sizes.room <= yard::FIRST_ROOM
        && sizes.steps <= yard::FIRST_STEPS
}

// The edition of a plan with this mark and these counts.
#[tactic(auto, unfolding(yard::specs::Card::edition_for))]
pub fn edition_for(closed: bool, sizes: Sizes) -> usize
    ensures { result ≡ edition_for closed sizes.cars sizes.trains sizes.tracks sizes.room sizes.steps }
{
    if !closed && fits_first(sizes) { 1 } else { 2 }
}

// The bits of a head.
fn head_bits(l: Layout) -> usize
    requires { Narrow l }
    ensures { result ≡ sum (head_widths l) }
{
    4 + l.mark + l.steps + l.tracks + l.room + l.cars + l.trains
}

// The bytes that a head takes up.
#[tactic(auto, unfolding(yard::specs::Card::head_length))]
pub fn head_length(head: Head) -> usize
    ensures { result ≡ head_length head }
{
    head_bits(layout_of(head.edition)).div_ceil(8)
}

// The places on a card with this head.
pub fn places_of(head: Head) -> Places
    requires { Bounded head }
    ensures { result ≡ places_of head }
{
    let l = layout_of(head.edition);
    let lengths = head_bits(l);
    let inbound = lengths + head.trains * l.number;
    let codes = inbound + head.cars * l.number;
    Places {
        lengths,
        inbound,
        codes,
        end: codes + head.cars * head.steps,
    }
}

// The length of a card with this head in bytes.
#[tactic(auto, unfolding(yard::specs::Card::card_length), using(crate::proofs::Widths::end_is))]
pub fn length(head: Head) -> usize
    requires { Bounded head }
    ensures { result ≡ card_length head }
{
    places_of(head).end.div_ceil(8)
}
