// The cheapest rising choice of numbers for the blocks of a train, and of those the one that is smallest at the first block where they differ.
#![tactic(auto)]

ghost use Rattle.std.specs.Prelude.{◌≡◌, ℕ, suc, ◌+◌, ◌*◌, ◌^◌, ◌≤◌, ◌<◌, length, get_or};
ghost use Rattle.yard.specs.Limits.{first_limits};
ghost use Rattle.choice.specs.Choice.{Cheapest, picks_most, Choosable};
ghost use Rattle.choice.specs.Rows.{together, Row, spare_of, Table, reached};

// The numbers of document 01's most steps.
const NUMBERS: usize = 1 << yard::FIRST_STEPS;

// The most places of the table of picks; they are `picks_most` (specs/Choice.antt).
pub const PICKS: usize = NUMBERS / 2 * (NUMBERS / 2 + 1);

// One block, from the last choice to the first: the row of the least costs behind it becomes its own, in place, and each pick is written.
// Of choices that cost the same the smaller is taken, since it is met later. This is where the time goes. The loop goes by
// index, since four lists side by side, in reverse, would be no plainer.
fn row(weights: &[u16], costs: &[u16], b: usize, width: usize, behind: &mut [u16], picks: &mut [u8])
    requires { (b < length weights.now) × (b + width ≤ length costs.now) × (width ≤ 2 ^ first_limits.steps) × (width ≤ length behind.old) ×
        (b * width + width ≤ length picks.old) × ((d : ℕ) → d < width → together weights.now costs.now b behind.old d ≤ 65535) }
    ensures { Row (together weights.now costs.now b behind.old) width 0 (b * width) picks.old
        behind.new picks.new }
{
    let weight = weights[b];
    let at = b * width;
    let mut least: u16 = 65535;
    let mut pick: u8 = 0;
    for d in (0..width).rev() {
        let cost = weight * costs[b + d] + behind[d];
        if cost <= least {
            least = cost;
            // A number to spare is below 256, so that it fits.
            pick = d as u8;
        }
        behind[d] = least;
        picks[at + d] = pick;
    }
}

// The table of picks, block by block from the last: what a block picks depends on what those behind it cost.
fn rows(weights: &[u16], costs: &[u16], width: usize, picks: &mut [u8])
    requires { Choosable weights.now costs.now × (width ≡ spare_of weights.now costs.now + 1) × (picks_most ≤ length picks.old) }
    ensures { Table weights.now costs.now 0 picks.new }
{
    let mut behind = [0u16; NUMBERS];
    for b in (0..weights.len()).rev() {
        row(weights, costs, b, width, &mut behind, picks);
    }
}

// The choice that the table leads to, from the first block on.
fn follow(picks: &[u8], width: usize, chosen: &mut [u16])
    requires { (length chosen.old ≤ 2 ^ first_limits.steps) × ((b : ℕ) → b < length chosen.old → b * width + reached picks.now width b < length picks.now) }
    ensures { (b : ℕ) → b < length chosen.old → get_or chosen.new b 0 ≡ b + reached picks.now width (suc b) }
{
    let mut d = 0;
    for (b, number) in chosen.iter_mut().enumerate() {
        d = usize::from(picks[b * width + d]);
        // A code of the first steps, so that it fits.
        *number = (b + d) as u16;
    }
}

// The cheapest number for each block, with room lent for the table of picks.
pub fn choose(weights: &[u16], costs: &[u16], picks: &mut [u8], chosen: &mut [u16])
    requires { Choosable weights.now costs.now × (picks_most ≤ length picks.old) × (length weights.now ≤ length chosen.old) }
    ensures { Cheapest weights.now costs.now (λ b. get_or chosen.new b 0) }
{
    let width = costs.len() - weights.len() + 1;
    rows(weights, costs, width, picks);
    follow(picks, width, &mut chosen[..weights.len()]);
}
