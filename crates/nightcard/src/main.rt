// Reads a card on standard input, and prints document 01's lines or the refusal.
#![tactic(auto)]

fn main(rt: HostRuntime) {
    report::run(&rt, "nightcard", report::nightcard);
}
