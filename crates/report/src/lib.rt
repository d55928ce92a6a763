// What the two programs put out for a card: document 01's lines, and the card of the derived plan.
#![tactic(auto)]

mod edge; // edge.rt: the programs' reading and writing
mod reading; // reading.rt: the lists of a card, as they are read

ghost use Rattle.std.specs.Prelude.{length};
ghost use Rattle.io.specs.Counts.{IsPrefixLen};
ghost use Rattle.yard.specs.Refusals.{refused};
ghost use Rattle.lines.specs.Text.{Adds};
ghost use Rattle.lines.specs.Lines.{answer_line};
ghost use Rattle.report.specs.Programs.{PutsOut, nightcard_text, nightplan_in};

pub use edge::{Taken, input, run, said};
use lines::Text;
use reading::Lists;
use yard::{Plan, Refusal};

// The bytes of a program's buffers; it is `buffer_size` (specs/Programs.antt).
pub const BUFFER: usize = 24576;

// What nightcard prints for a card, and where it ends: all of it stands in a buffer of 24,576 bytes
// (`nightcard-puts-out` in proofs/Outcome.antt).
pub fn nightcard(card: &[u8], text: &mut [u8]) -> usize
    ensures adds { Adds (nightcard_text card.now) text.old 0 result text.new }
    ensures prefix_len { IsPrefixLen result text.new }
{
    match checked(card, text) {
        Ok(end) => end,
        Err(refusal) => refused(refusal, text),
    }
}

// What nightplan writes for a card, and where it ends: in a buffer of 24,576 bytes the whole of the
// derived plan's card, or a refusal of the reader or of derive (`nightplan-puts-out`).
pub fn nightplan(card: &[u8], out: &mut [u8]) -> usize
    ensures adds { Adds (nightplan_in (length out.old) card.now) out.old 0 result out.new }
    ensures prefix_len { IsPrefixLen result out.new }
{
    match derived(card, out) {
        Ok(end) => end,
        Err(refusal) => refused(refusal, out),
    }
}

// The lines of the card's plan: its counts, and its trains as the replay built them, which are in order (`trains-built` in
// proofs/Programs.antt), unless the reader or check refuses.
fn checked(card: &[u8], text: &mut [u8]) -> Result<usize, Refusal>
    ensures { PutsOut (nightcard_text card.now) text.old result text.new }
{
    let mut lists = Lists::new();
    let plan = lists.read(card)?;
    let passes = plans::check(plan)?.passes;
    let mut text = Text::new(text);
    lines::counts(&mut text, plan, passes);
    lines::trains(&mut text, plan.night.lengths);
    Ok(text.end())
}

// The card of the plan that is derived for the card's night with the largest limit, unless the reader, derive or the writer refuses,
// the last where the buffer is too short.
fn derived(card: &[u8], out: &mut [u8]) -> Result<usize, Refusal>
    ensures { PutsOut (nightplan_in (length out.old) card.now) out.old result out.new }
{
    let mut lists = Lists::new();
    let night = lists.read(card)?.night;
    let mut codes = [0; yard::CARS];
    let steps = derive::derive(night, yard::STEPS, &mut codes)?.steps;
    let codes = &codes[..night.inbound.len()];
    card::write(
        Plan {
            night,
            steps,
            codes,
        },
        out,
    )
}

// The line of a refusal, and where it ends.
fn refused(refusal: Refusal, out: &mut [u8]) -> usize
    ensures { Adds (answer_line (refused refusal)) out.old 0 result out.new }
{
    let mut text = Text::new(out);
    lines::refusal(&mut text, refusal);
    text.end()
}
