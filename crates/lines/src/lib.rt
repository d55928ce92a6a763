// Document 01's lines, put into a buffer.
#![tactic(auto)]

mod text; // text.rt: text at the front of a buffer, piece behind piece

ghost use Rattle.std.specs.Prelude.{◌+◌, ◌<◌, ◌≤◌, length};
ghost use Rattle.yard.specs.Words.{up_from};
ghost use Rattle.yard.specs.Night.{sum, cars_of};
ghost use Rattle.yard.specs.Refusals.{refused};
ghost use Rattle.yard.specs.Lent.{the_plan};
ghost use Rattle.lines.specs.Text.{Grows};
ghost use Rattle.lines.specs.Lines.{answer_line, counts_line, plan_line, train_line, each_to};

pub use text::Text;
use yard::{Answer, Plan, Refusal, Sizes};

// The only line where a card is refused.
pub fn refusal(text: &mut Text, refusal: Refusal)
    ensures { Grows (answer_line (refused refusal)) text.old text.new }
{
    answer(text, refusal.into());
}

// The same line, of any number, A and B.
pub fn answer(text: &mut Text, told: Answer)
    ensures { Grows (answer_line told) text.old text.new }
{
    text.labelled(b"refused ", told.number);
    text.labelled(b" ", told.a);
    text.labelled(b" ", told.b);
    text.bytes(b"\n");
}

// The first line of a card that is accepted.
pub fn counts(text: &mut Text, plan: Plan, passes: usize)
    ensures { Grows (plan_line (the_plan plan.entry) passes) text.old text.new }
{
    sizes(text, plan.night.sizes(plan.steps), passes);
}

// The same line, of any counts.
pub fn sizes(text: &mut Text, told: Sizes, passes: usize)
    ensures { Grows (counts_line told.steps told.tracks told.room told.cars told.trains passes) text.old text.new }
{
    text.labelled(b"steps ", told.steps);
    text.labelled(b" tracks ", told.tracks);
    text.labelled(b" room ", told.room);
    text.labelled(b" cars ", told.cars);
    text.labelled(b" trains ", told.trains);
    text.labelled(b" passes ", passes);
    text.bytes(b"\n");
}

// The lines of the trains of these lengths, each with its cars in order.
pub fn trains(text: &mut Text, lengths: &[u16])
    requires { sum lengths.now < 65536 }
    ensures { Grows (each_to (λ t. train_line t (cars_of lengths.now t)) (length lengths.now)) text.old text.new }
{
    let mut first = 1;
    for (i, &length) in lengths.iter().enumerate() {
        let count = usize::from(length);
        train(text, i + 1, first, count);
        first += count;
    }
}

// The line of a train with the cars in a row from the first on.
fn train(text: &mut Text, number: usize, first: usize, count: usize)
    requires { first + count ≤ 65536 }
    ensures { Grows (train_line number (up_from first count)) text.old text.new }
{
    text.labelled(b"train ", number);
    text.bytes(b":");
    for car in first..first + count {
        text.labelled(b" ", car);
    }
    text.bytes(b"\n");
}
