// What a replay does, worked out from the codes: passes, pulls and the first early pull.
#![tactic(auto)]

pub mod early;

ghost use Rattle.std.specs.Prelude.{◌≡◌, ◌+◌, ◌/◌, ◌%◌, ◌^◌, ◌≤◌, ◌<◌, length};
ghost use Rattle.std.specs.Int.Count.{ones};
ghost use Rattle.scan.specs.Found.{found};
ghost use Rattle.yard.specs.Limits.{limits};
ghost use Rattle.yard.specs.Words.{tally};
ghost use Rattle.yard.specs.Replay.{bit};
ghost use Rattle.sorting.specs.Sums.{pull_of, set_below, first_above, fullest_of};

// The pulls of a plan: the code of each car names the steps that pull it. With the cars of the fullest, 0 where there are no steps.
#[derive(Clone, Copy)]
pub struct Pulls<'a> {
    pub codes: &'a [u16],
    pub steps: usize,
    pub fullest: usize,
    ghost few: { length codes.now ≤ limits.cars },
    ghost stages: { steps ≤ limits.steps },
    ghost is_fullest: { fullest ≡ fullest_of codes.now steps },
}

impl<'a> Pulls<'a> {
    // Goes over the codes for each step once.
    pub fn of(codes: &'a [u16], steps: usize) -> Pulls<'a>
        requires { (steps ≤ limits.steps) × (length codes.now ≤ limits.cars) }
        ensures codes { result.codes ≡ codes.entry }
        ensures steps { result.steps ≡ steps }
    {
        let mut fullest: usize = 0;
        for step in 0..steps {
            fullest = fullest.max(pull(codes, step));
        }
        Pulls {
            codes,
            steps,
            fullest,
        }
    }

    // How many codes name the step: the cars it pulls.
    pub fn pull(self, step: usize) -> usize
        requires { step < limits.steps }
        ensures { result ≡ pull_of self.entry.codes.now step }
    {
        pull(self.codes, step)
    }

    // The first step that pulls more cars than there is room for. Only where the fullest does is there one to look for.
    pub fn first_above(self, room: usize) -> Option<usize>
        ensures { result ≡ found self.entry.steps (first_above room self.entry.codes.now self.entry.steps) }
    {
        if self.fullest <= room {
            return None;
        }
        (0..self.steps).find(|&step| room < self.pull(step))
    }

    // The cars that roll in up to a stage: each once, and once more for each set bit of its code below the stage.
    pub fn passes(self, stage: usize) -> usize
        requires { stage ≤ limits.steps }
        ensures { result ≡ length self.entry.codes.now + set_below stage self.entry.codes.now }
    {
        let n = self.codes.len();
        let half = yard::CARS / 2;
        if n <= half {
            return n + set_below(self.codes, stage);
        }
        let (first, second) = self.codes.split_at(half);
        n + (set_below(first, stage) + set_below(second, stage))
    }
}

// 1 where the code names the step, else 0.
fn names(code: u16, step: usize) -> u16
    requires { step < 16 }
    ensures { result ≡ tally (bit step code) }
{
    (code >> step) % 2
}

// How many codes name the step. The count is as wide as a code, so that the machine counts many codes at once.
fn pull(codes: &[u16], step: usize) -> usize
    requires { (step < limits.steps) × (length codes.now ≤ limits.cars) }
    ensures { result ≡ pull_of codes.now step }
{
    let mut cars: u16 = 0;
    for &code in codes {
        cars += names(code, step);
    }
    usize::from(cars)
}

// The set bits of a code.
pub fn ones(code: u16) -> u16
    ensures { (result ≡ ones code) × (result ≤ 16) }
{
    // `as`, since Rust has no From of this count's type for a u16.
    code.count_ones() as u16
}

// The low bits of a code, below a stage.
pub fn low(code: u16, stage: usize) -> u16
    requires { stage ≤ 16 }
    ensures { result ≡ code % 2 ^ stage }
{
    if stage == 16 {
        return code;
    }
    code % (1 << stage)
}

// The set bits of the codes below a stage, for at most half the cars of a night, so that a sum as wide as a code holds them.
fn set_below(codes: &[u16], stage: usize) -> usize
    requires { (stage ≤ limits.steps) × (length codes.now ≤ limits.cars / 2) }
    ensures { (result ≡ set_below stage codes.now) × (result < 2 ^ 16) }
{
    let mut again: u16 = 0;
    for &code in codes {
        again += ones(low(code, stage));
    }
    usize::from(again)
}
