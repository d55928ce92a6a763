// What the yard is told: the answers of the calls, as document 01 has them, and its limits. The meaning of each stands in specs/.
#![tactic(auto)]

ghost use Rattle.std.specs.Prelude.{◌≡◌, length};

pub mod refusal; // refusal.rt: why a call is refused
pub mod told; // told.rt: what a call tells, and its answer as a number with details

pub use refusal::{CountName, ListName, Refusal, TimingName};
pub use told::{Checked, Derived};

// The most cars, trains, sorting tracks, cars on a track, steps, and passes of a priced night. They are those of `limits` (specs/Limits.antt).
pub const CARS: usize = 4096;

pub const TRAINS: usize = 256;

pub const TRACKS: usize = 16;

pub const ROOM: usize = 4096;

pub const STEPS: usize = 16;

pub const PASSES: usize = 69632;

// Document 01's, those of `first_limits`: cards of edition 1 and the fewest passes keep them. A night within them is worked on in smaller arrays,
// since to clear the larger ones would cost it more than the rest.
pub const FIRST_CARS: usize = 512;

pub const FIRST_TRAINS: usize = 64;

pub const FIRST_TRACKS: usize = 8;

pub const FIRST_ROOM: usize = 512;

pub const FIRST_STEPS: usize = 8;

pub const FIRST_PASSES: usize = 4608;

// The limits that a call keeps to: the most of each.
#[derive(Clone, Copy, Debug, PartialEq, Eq)]
pub struct Limits {
    pub cars: usize,
    pub trains: usize,
    pub tracks: usize,
    pub room: usize,
    pub steps: usize,
    pub passes: usize,
}

// The limits of today, which are `limits`, and document 01's, which are `first_limits` (proofs/general/Limits.antt).
pub const LIMITS: Limits = Limits {
    cars: CARS,
    trains: TRAINS,
    tracks: TRACKS,
    room: ROOM,
    steps: STEPS,
    passes: PASSES,
};

pub const FIRST_LIMITS: Limits = Limits {
    cars: FIRST_CARS,
    trains: FIRST_TRAINS,
    tracks: FIRST_TRACKS,
    room: FIRST_ROOM,
    steps: FIRST_STEPS,
    passes: FIRST_PASSES,
};

// The counts of a call that no list sets: the sorting tracks, the room on each, and the steps of a plan or the step limit of derive.
// A caller gives them by name, since three numbers in a row are easily exchanged.
#[repr(C)]
#[derive(Clone, Copy, Debug, PartialEq, Eq)]
pub struct Counts {
    pub tracks: usize,
    pub room: usize,
    pub steps: usize,
}

// A night: the lengths of the outbound trains, the inbound order of the cars, its mark, the sorting tracks and the room on each.
#[derive(Clone, Copy, Debug, PartialEq, Eq)]
pub struct Night<'a> {
    pub lengths: &'a [u16],
    pub inbound: &'a [u16],
    pub closed: bool,
    pub tracks: usize,
    pub room: usize,
}

// A plan of a night: its steps and the code of each car.
#[derive(Clone, Copy, Debug, PartialEq, Eq)]
pub struct Plan<'a> {
    pub night: Night<'a>,
    pub steps: usize,
    pub codes: &'a [u16],
}

// The counts that every call tests: those of a night, and the steps of a plan or a step limit.
#[derive(Clone, Copy, Debug, PartialEq, Eq)]
pub struct Sizes {
    pub cars: usize,
    pub trains: usize,
    pub tracks: usize,
    pub room: usize,
    pub steps: usize,
}

impl<'a> Night<'a> {
    ghost use Rattle.yard.specs.Lent.{sizes_of};

    pub fn sizes(self, steps: usize) -> Sizes
        ensures { result ≡ sizes_of (length self.entry.inbound.now) (length self.entry.lengths.now) self.entry.tracks self.entry.room steps }
    {
        Sizes {
            cars: self.inbound.len(),
            trains: self.lengths.len(),
            tracks: self.tracks,
            room: self.room,
            steps,
        }
    }
}

impl From<Head> for Sizes {
    ghost use Rattle.yard.specs.Lent.{sizes_of};

    ghost from_gives = { λ head sizes. sizes ≡ sizes_of head.cars head.trains head.tracks head.room head.steps };

    fn from(head: Head) -> Sizes {
        Sizes {
            cars: head.cars,
            trains: head.trains,
            tracks: head.tracks,
            room: head.room,
            steps: head.steps,
        }
    }
}

// A number, 0 where all is done, and two details, 0 where unused.
#[repr(C)]
#[derive(Clone, Copy, Debug, PartialEq, Eq)]
pub struct Answer {
    pub number: usize,
    pub a: usize,
    pub b: usize,
}

// What the card reader tells besides: the card's mark, 0 for open and 1 for closed, its steps, tracks, room, cars and trains, all 0
// where it refuses.
#[repr(C)]
#[derive(Clone, Copy, Debug, PartialEq, Eq)]
pub struct CardAnswer {
    pub number: usize,
    pub a: usize,
    pub b: usize,
    pub mark: usize,
    pub steps: usize,
    pub tracks: usize,
    pub room: usize,
    pub cars: usize,
    pub trains: usize,
}

// The two timings of a night, kept together: seconds for a pull-out, and seconds to push one car.
#[repr(C)]
#[derive(Clone, Copy, Debug, PartialEq)]
pub struct Timings {
    pub pull: f64,
    pub push: f64,
}

// What the price of a night is, positive zero where it is refused.
#[repr(C)]
#[derive(Clone, Copy, Debug, PartialEq)]
pub struct PriceAnswer {
    pub number: usize,
    pub a: usize,
    pub b: usize,
    pub price: f64,
}

// The widths of a card's fields in bits, by its edition; 0 where an edition has no such field. The edition itself has 4 bits, a code
// has as many as the plan has steps, and `number` is the width of a train's length and of an inbound number.
#[derive(Clone, Copy, Debug, PartialEq, Eq)]
pub struct Layout {
    pub mark: usize,
    pub steps: usize,
    pub tracks: usize,
    pub room: usize,
    pub cars: usize,
    pub trains: usize,
    pub number: usize,
}

// The numbers at the head of a card.
#[derive(Clone, Copy, Debug, PartialEq, Eq)]
pub struct Head {
    pub edition: usize,
    pub mark: usize,
    pub steps: usize,
    pub tracks: usize,
    pub room: usize,
    pub cars: usize,
    pub trains: usize,
}
