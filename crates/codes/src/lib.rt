// Usable codes: the fewest tracks of a code, the fewest steps for a number of breaks, and the usable codes in rising order.
#![tactic(auto)]

ghost use Rattle.std.specs.Prelude.{◌≡◌, ◌++◌, map, ◌+◌, ◌-◌, ◌≤◌, ◌<◌, ◌^◌, length, take, drop};
ghost use Rattle.std.specs.Int.Count.{count_leading_zeros, count_trailing_zeros};
ghost use Rattle.yard.specs.Limits.{limits, first_limits};
ghost use Rattle.yard.specs.Demands.{Within};
ghost use Rattle.yard.specs.Codes.{F, fewest_tracks, fewest_steps, usable_codes, allowed_codes};
ghost use Rattle.codes.specs.Gap.{gaps};
ghost use Rattle.scan.specs.Found.{found};
ghost use Rattle.scan.specs.Front.{Under, Front};
ghost use Rattle.codes.specs.Allowed.{AllowedPart};
ghost use Rattle.codes.specs.Ring.{lost, Ring};
ghost use Rattle.codes.specs.Wider.{first_wider};

// How many codes there are of document 01's most steps.
pub const CODES: usize = 1 << yard::FIRST_STEPS;

// The most usable codes that the fewest steps of a night have: the steps before the last have a code for no more than all cars, and a step at most
// doubles them.
pub const MOST_CODES: usize = 2 * yard::CARS;

// A part of a list: the index of its first item, and that behind its last.
#[derive(Clone, Copy)]
pub struct Part {
    pub from: usize,
    pub to: usize,
}

// The fewest tracks on which a car with a code is never pulled early, by code.
const FEWEST: [u8; 256] = [
    1, 1, 2, 1, 3, 2, 2, 1, 4, 3, 2, 2, 3, 2, 2, 1, 5, 4, 3, 3, 3, 2, 2, 2, 4, 3, 2, 2, 3, 2, 2, 1,
    6, 5, 4, 4, 3, 3, 3, 3, 4, 3, 2, 2, 3, 2, 2, 2, 5, 4, 3, 3, 3, 2, 2, 2, 4, 3, 2, 2, 3, 2, 2, 1,
    7, 6, 5, 5, 4, 4, 4, 4, 4, 3, 3, 3, 3, 3, 3, 3, 5, 4, 3, 3, 3, 2, 2, 2, 4, 3, 2, 2, 3, 2, 2, 2,
    6, 5, 4, 4, 3, 3, 3, 3, 4, 3, 2, 2, 3, 2, 2, 2, 5, 4, 3, 3, 3, 2, 2, 2, 4, 3, 2, 2, 3, 2, 2, 1,
    8, 7, 6, 6, 5, 5, 5, 5, 4, 4, 4, 4, 4, 4, 4, 4, 5, 4, 3, 3, 3, 3, 3, 3, 4, 3, 3, 3, 3, 3, 3, 3,
    6, 5, 4, 4, 3, 3, 3, 3, 4, 3, 2, 2, 3, 2, 2, 2, 5, 4, 3, 3, 3, 2, 2, 2, 4, 3, 2, 2, 3, 2, 2, 2,
    7, 6, 5, 5, 4, 4, 4, 4, 4, 3, 3, 3, 3, 3, 3, 3, 5, 4, 3, 3, 3, 2, 2, 2, 4, 3, 2, 2, 3, 2, 2, 2,
    6, 5, 4, 4, 3, 3, 3, 3, 4, 3, 2, 2, 3, 2, 2, 2, 5, 4, 3, 3, 3, 2, 2, 2, 4, 3, 2, 2, 3, 2, 2, 1,
];

// The fewest tracks of each code of the first steps, with their rule.
#[derive(Clone, Copy)]
struct TrackTable {
    entries: [u8; CODES],
    ghost by_rule: { entries ≡ gaps first_limits.steps },
}

// The table, with its rule: computed over all its codes here, and nowhere else.
fn table() -> TrackTable
    ensures { result.entries ≡ gaps first_limits.steps }
{
    TrackTable { entries: FEWEST }
}

// The gap between two bytes of a code, the upper of which is not 0: from the highest set bit of the lower one, or from -1 where there is none, to
// the lowest of the upper one.
fn between(low: u8, high: u8) -> usize
    ensures { result ≡ count_leading_zeros first_limits.steps low + count_trailing_zeros first_limits.steps high + 1 }
{
    // `as`, since Rust has no From of these counts' type for a usize.
    low.leading_zeros() as usize + high.trailing_zeros() as usize + 1
}

impl TrackTable {
    // The fewest tracks of a code that the table has.
    fn entry(&self, code: u8) -> usize
        ensures { result ≡ fewest_tracks limits.steps code }
    {
        usize::from(self.entries[usize::from(code)])
    }

    // The fewest tracks of a code above the table's: the widest gap is within one of its two bytes, or between them.
    fn worked_out(&self, code: u16) -> usize
        requires { 2 ^ first_limits.steps ≤ code }
        ensures { result ≡ fewest_tracks limits.steps code }
    {
        let [low, high] = code.to_le_bytes();
        let within = self.entry(low).max(self.entry(high));
        within.max(between(low, high))
    }

    // The fewest tracks of a code.
    fn fewest(&self, code: u16) -> usize
        ensures { result ≡ fewest_tracks limits.steps code }
    {
        if usize::from(code) < CODES {
            // Below the number of codes of the table, so that it fits.
            return self.entry(code as u8);
        }
        self.worked_out(code)
    }
}

// The fewest tracks on which a car with this code is never pulled early.
pub fn fewest_tracks(code: u16) -> usize
    ensures { result ≡ fewest_tracks limits.steps code }
{
    table().fewest(code)
}

// The index of the first code of these steps that needs more tracks than these. Codes of few steps are looked up without a question whether the
// table has them.
pub fn first_wider(codes: &[u16], tracks: usize, steps: usize) -> Option<usize>
    requires { Under (2 ^ steps) codes.now }
    ensures { result ≡ found (length codes.now) (first_wider tracks codes.now) }
{
    let table = table();
    // Codes of few steps are below 256, so that the cast fits.
    if steps <= yard::FIRST_STEPS {
        return codes
            .iter()
            .position(|&code| tracks < table.entry(code as u8));
    }
    codes.iter().position(|&code| tracks < table.fewest(code))
}

// How many usable codes there are of some steps, counted step by step: a step doubles them, but loses those of as many steps back as there are
// tracks. A ring of one slot for each track has what the next steps lose.
#[derive(Drop)]
struct Usable {
    tracks: usize,
    steps: usize,
    codes: usize,
    ring: [usize; yard::TRACKS],
    ghost some: { 1 ≤ tracks },
    ghost room: { tracks ≤ length ring },
    ghost counted: { codes ≡ F tracks steps },
    ghost held: { Ring tracks ring steps },
}

impl Usable {
    fn new(tracks: usize) -> Usable
        requires { Within 1 limits.tracks tracks }
        ensures { (result.tracks ≡ tracks) × (result.steps ≡ 0) }
    {
        Usable {
            tracks,
            steps: 0,
            codes: 1,
            ring: [0; yard::TRACKS],
        }
    }

    // Counts a step more, and answers how many of the codes it loses.
    fn step(&mut self) -> usize
        requires { self.old.codes ≤ 2 ^ limits.steps }
        ensures { (result ≡ lost self.old.tracks self.old.steps) × (self.new.tracks ≡ self.old.tracks) × (self.new.steps ≡ self.old.steps + 1) }
    {
        let slot = self.steps % self.tracks;
        let out = self.ring[slot];
        self.ring[slot] = self.codes;
        self.codes = 2 * self.codes - out;
        self.steps += 1;
        out
    }
}

// The fewest steps that give a usable code for each number of breaks up to this one.
pub fn fewest_steps(tracks: usize, breaks: usize) -> usize
    requires { Within 1 limits.tracks tracks × (breaks ≤ limits.cars) }
    ensures { result ≡ fewest_steps tracks breaks }
{
    let mut usable = Usable::new(tracks);
    while usable.codes <= breaks {
        usable.step();
    }
    usable.steps
}

// Writes the codes but the first ones once more behind them, with a bit added.
fn with_bit(bit: u16, but: usize, codes: usize, into: &mut [u16])
    requires { (but ≤ codes) × (codes + codes ≤ length into.old + but) × Under bit (take codes into.old) × (bit + bit ≤ 2 ^ 16) }
    ensures { Front (take codes into.old ++ map (λ x. bit + x) (drop but (take codes into.old))) into.old (codes + (codes - but))
        into.new }
{
    let (front, behind) = into.split_at_mut(codes);
    // By index, since what a zip with `iter_mut` has written is not known behind the loop: the proof did not close.
    for (k, &code) in front[but..].iter().enumerate() {
        behind[k] = bit + code;
    }
}

// Writes the usable codes of these steps to the front of a list, in rising order, and answers how many there are.
pub fn usable_codes(tracks: usize, steps: usize, into: &mut [u16]) -> usize
    requires { Within 1 limits.tracks tracks × (steps ≤ limits.steps) × (F tracks steps ≤ length into.old) }
    ensures { Front (usable_codes tracks steps) into.old result into.new }
{
    let mut usable = Usable::new(tracks);
    into[0] = 0;
    for step in 0..steps {
        let codes = usable.codes;
        let but = usable.step();
        with_bit(1 << step, but, codes, into);
    }
    usable.codes
}

// Writes the usable codes of these steps to the front of a list, and answers the part of it that a night allows: all, or where it is closed all
// but the first, which is 0.
pub fn allowed_codes(closed: bool, tracks: usize, steps: usize, into: &mut [u16]) -> Part
    requires { Within 1 limits.tracks tracks × (steps ≤ limits.steps) × (F tracks steps ≤ length into.old) }
    ensures { AllowedPart closed tracks steps into.new result }
{
    let to = usable_codes(tracks, steps, into);
    Part {
        from: usize::from(closed),
        to,
    }
}

// The same, with the part lent: while it is, no clause can say what stands in the list around it.
pub fn lend_allowed<'a>(closed: bool, tracks: usize, steps: usize, into: &'a mut [u16]) -> &'a [u16]
    requires { Within 1 limits.tracks tracks × (steps ≤ limits.steps) × (F tracks steps ≤ length into.old) }
    ensures { result.now ≡ allowed_codes closed tracks steps }
{
    let part = allowed_codes(closed, tracks, steps, into);
    &into[part.from..part.to]
}
