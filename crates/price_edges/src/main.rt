// Runs the edges of document 01's price through the call: a line for each, with the number, A, B and the double's bits.
// A line that can't be printed is passed over.
#![tactic(auto)]

use yard::{PriceAnswer, Timings};

// A double's bits, and none for not-a-number, which has many patterns.
fn bits(x: f64) -> u64 {
    if x.is_nan() { 0 } else { x.to_bits() }
}

fn edge(rt: &impl Print, name: &str, steps: usize, passes: usize, timings: Timings) {
    let PriceAnswer {
        number,
        a,
        b,
        price,
    } = price::price(steps, passes, timings).into();
    let price = bits(price);
    let _ = println!(rt; "{number} {a} {b} {price:016x} {name}");
}

// What is no timing, as a pull and as a push.
fn not_allowed(rt: &impl Print) {
    let doubles = [
        ("not-a-number", 0.0 / 0.0),
        ("infinity", 1.0 / 0.0),
        ("minus infinity", -1.0 / 0.0),
        ("negative zero", -0.0),
        ("minus 1/16", -0.0625),
        ("0.1", 0.1),
        ("1/32", 0.03125),
        ("4096 and 1/16", 4096.0625),
        ("the double after 4096", 4096.000000000001),
        ("the smallest double", 5e-324),
        ("the largest double", 1.7976931348623157e308),
    ];
    for (name, x) in doubles {
        edge(
            rt,
            name,
            2,
            3,
            Timings {
                pull: x,
                push: 0.25,
            },
        );
        edge(rt, name, 2, 3, Timings { pull: 1.5, push: x });
    }
}

// Which refusal comes first, and prices.
fn nights(rt: &impl Print) {
    let nights = [
        ("both timings, pull first", 2, 3, 0.1, 0.1),
        ("17 steps before the rest", 17, 69633, 0.1, 0.1),
        ("69633 passes before the timings", 16, 69633, 0.1, 0.1),
        ("2 at 1.5 and 3 at 0.25: 3.75", 2, 3, 1.5, 0.25),
        ("both zero: 0", 16, 69632, 0.0, 0.0),
        ("no steps, no passes: 0", 0, 0, 4096.0, 4096.0),
        ("1 at 1/16: 1/16", 1, 0, 0.0625, 4096.0),
        (
            "1 at 1/16 and 1 at 4096: 4096 and 1/16",
            1,
            1,
            0.0625,
            4096.0,
        ),
        ("document 01's largest: 18907136", 8, 4608, 4096.0, 4096.0),
        ("the largest: 285278208", 16, 69632, 4096.0, 4096.0),
    ];
    for (name, steps, passes, pull, push) in nights {
        edge(rt, name, steps, passes, Timings { pull, push });
    }
}

fn main(rt: HostRuntime) {
    not_allowed(&rt);
    nights(&rt);
}
