// Reads a card on standard input, and writes the card of the derived plan, or prints the refusal.
#![tactic(auto)]

fn main(rt: HostRuntime) {
    report::run(&rt, "nightplan", report::nightplan);
}
