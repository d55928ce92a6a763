// The inbound list has each car once: a mark for each car met tells the first place with a number out of range or met before.
#![tactic(auto)]

ghost use Rattle.std.specs.Prelude.{◌≡◌, ℕ, ◌+◌, ◌≤◌, ◌<◌, Bool, not, ◌&&◌, leb, length, get_or};
ghost use Rattle.yard.specs.Words.{every};
ghost use Rattle.yard.specs.Limits.{limits};
ghost use Rattle.yard.specs.Answers.{in_range, first_bad};
ghost use Rattle.scan.specs.Found.{found};
ghost use Rattle.marks.specs.Marks.{marked, markable, Marks, Sought, Looked};

// Marks the car, and no other: was it marked before?
#[tactic(auto, using(crate::proofs::Marks::in_words))]
fn mark(marks: &mut [u64], car: usize) -> bool
    requires { (1 ≤ car) × (car ≤ markable marks.old) }
    ensures { (result ≡ marked marks.old car) × Marks marks.old car marks.new }
{
    let at = car % marks.len();
    let before = marks[at];
    let after = before | 1 << (car / marks.len() % 64);
    marks[at] = after;
    before == after
}

// A number is a car of a list of n.
fn inside(car: u16, n: u16) -> bool
    ensures { result ≡ (leb 1 car && leb car n) }
{
    (1 <= car) & (car <= n)
}

// Every number is a car. No branch stands in the fold, so that it takes many numbers at a time.
fn all_inside(inbound: &[u16]) -> bool
    requires { length inbound.now ≤ limits.cars }
    ensures { result ≡ every (in_range inbound.now) inbound.now }
{
    // At most 4,096, so that it fits; here and below.
    let n = inbound.len() as u16;
    inbound.iter().fold(true, |all, &car| all & inside(car, n))
}

// Is the number at the place behind the first i out of range, as `outside` tells, or was it met before? It is marked now.
fn bad<F: Fn(u16) -> bool>(marks: &mut [u64], inbound: &[u16], i: usize, outside: &F) -> bool
    requires within { i < length inbound.now }
    requires callable { F.IsAlwaysCallable outside.now }
    requires tells { (i : ℕ) (out : Bool) → i < length inbound.now → F.post outside.now (get_or inbound.now i 0) out → out ≡ not (in_range inbound.now (get_or inbound.now i 0)) }
    requires sought { Sought inbound.now marks.old i }
    ensures { Looked inbound.now i result marks.new }
{
    let car = inbound[i];
    outside(car) || mark(marks, usize::from(car))
}

// The first bad place, found with marks that are still empty. The loop goes by index and looks at two places in a turn: one by one over the
// numbers was slower, by a tenth on short lists.
fn first_place<F: Fn(u16) -> bool>(inbound: &[u16], marks: &mut [u64], outside: F) -> Option<usize>
    requires callable { F.IsAlwaysCallable outside }
    requires tells { (i : ℕ) (out : Bool) → i < length inbound.now → F.post outside (get_or inbound.now i 0) out → out ≡ not (in_range inbound.now (get_or inbound.now i 0)) }
    requires sought { Sought inbound.now marks.old 0 }
    ensures { result ≡ found (1 + length inbound.now) (first_bad inbound.now) }
{
    let mut i = 0;
    while i + 1 < inbound.len() {
        if bad(marks, inbound, i, &outside) {
            return Some(i + 1);
        }
        if bad(marks, inbound, i + 1, &outside) {
            return Some(i + 2);
        }
        i += 2;
    }
    if i < inbound.len() && bad(marks, inbound, i, &outside) {
        return Some(i + 1);
    }
    None
}

// The first place with a number out of range or met before. One word does for a short list, and then the machine need not keep it in memory.
pub fn first_bad(inbound: &[u16]) -> Option<usize>
    requires { length inbound.now ≤ limits.cars }
    ensures { result ≡ found (1 + length inbound.now) (first_bad inbound.now) }
{
    let n = inbound.len() as u16;
    if inbound.len() <= 64 {
        return first_place(inbound, &mut [0; 1], |car| !inside(car, n));
    }
    let mut words = [0; yard::CARS / 64];
    if all_inside(inbound) {
        return first_place(inbound, &mut words, |_| false);
    }
    first_place(inbound, &mut words, |car| !inside(car, n))
}
