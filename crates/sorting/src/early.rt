// The search for the first early pull, from the codes alone.
ghost use Rattle.std.specs.Prelude.{◌≡◌, ◌+◌, ◌≤◌, ◌<◌};
ghost use Rattle.yard.specs.Limits.{limits};
ghost use Rattle.yard.specs.Replay.{next_step};
ghost use Rattle.yard.specs.Waiting.{waits};
ghost use Rattle.sorting.specs.Early.{early_found};

// An early pull: its step and the lowest car of that step.
#[derive(Clone, Copy, Debug, PartialEq, Eq)]
pub struct EarlyPull {
    pub step: usize,
    pub car: usize,
}

// The first step from this one on that the code names, or steps where there is none. A number and no Option: the meaning's `next_step` tells it
// so, and whoever looks a step up by it (stage) needs no branch.
pub fn next_step(code: u16, steps: usize, step: usize) -> usize
    requires { (step ≤ steps) × (steps ≤ 16) × (step < 16) }
    ensures { result ≡ next_step steps code step }
{
    // `as`, since Rust has no From of this count's type for a usize.
    let next = step + (code >> step).trailing_zeros() as usize;
    next.min(steps)
}

// A car with this code stands on the track of this step, bound for a later one that uses the same track.
pub fn waits(code: u16, tracks: usize, steps: usize, step: usize) -> bool
    requires { (0 < tracks) × (step < steps) × (steps ≤ limits.steps) }
    ensures { result ≡ waits tracks steps code step }
{
    let next = next_step(code, steps, step);
    if next == step || steps <= next {
        return false;
    }
    next % tracks == step % tracks
}

// Goes over steps, then cars, and ends both at the first hit: document 01 names this form, two loops that are left by a label.
pub fn first_early(codes: &[u16], tracks: usize, steps: usize) -> Option<EarlyPull>
    requires { (0 < tracks) × (steps ≤ limits.steps) }
    ensures { result ≡ early_found tracks steps codes.now }
{
    let mut found = None;
    'search: for step in 0..steps {
        for (i, &code) in codes.iter().enumerate() {
            if waits(code, tracks, steps, step) {
                found = Some(EarlyPull { step, car: i + 1 });
                break 'search;
            }
        }
    }
    found
}
