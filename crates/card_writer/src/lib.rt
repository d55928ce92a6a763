// The writer's tests, and the card drawn field by field.
#![tactic(auto)]

ghost use Rattle.std.specs.Prelude.{◌≡◌, ◌+◌, ◌≤◌, length};
ghost use Rattle.yard.specs.Limits.{limits};
ghost use Rattle.yard.specs.Night.{sum};
ghost use Rattle.yard.specs.Bits.{packed};
ghost use Rattle.yard.specs.Card.{head_widths, head_fields, head_of, writer_answer};
ghost use Rattle.yard.specs.Lent.{the_plan};
ghost use Rattle.yard.specs.Refusals.{count_told};
ghost use Rattle.bits.specs.Pens.{HasRoom, Draws, reach};
ghost use Rattle.format.specs.Format.{Narrow};
ghost use Rattle.card_writer.specs.Writing.{IsDrawable, card_over};

use bits::pens::CardPen;
use yard::{Head, Layout, ListName, Plan, Refusal};

// A plan, and the numbers at the head of its card.
#[derive(Clone, Copy)]
pub struct Draft<'a> {
    pub plan: Plan<'a>,
    pub head: Head,
    ghost head_is: { head ≡ head_of (the_plan plan) },
}

// Draws the head of a card in the widths of its edition, its numbers one behind the other.
fn draw_head(pen: &mut CardPen, l: Layout, head: Head)
    requires { Narrow l × HasRoom (sum (head_widths l)) pen.old }
    ensures drawn { Draws (packed (head_widths l) (head_fields head)) pen.old pen.new }
    ensures reached { reach pen.new ≡ reach pen.old + sum (head_widths l) }
{
    pen.put(4, head.edition);
    pen.put(l.mark, head.mark);
    pen.put(l.steps, head.steps);
    pen.put(l.tracks, head.tracks);
    pen.put(l.room, head.room);
    pen.put(l.cars, head.cars);
    pen.put(l.trains, head.trains);
}

impl<'a> Draft<'a> {
    // A plan with its head: edition 1 where the night is open and the plan fits it, else edition 2.
    pub fn new(plan: Plan<'a>) -> Draft<'a>
        ensures { the_plan result.plan ≡ the_plan plan.entry }
    {
        let sizes = plan.night.sizes(plan.steps);
        let head = Head {
            edition: format::edition_for(plan.night.closed, sizes),
            mark: usize::from(plan.night.closed),
            steps: sizes.steps,
            tracks: sizes.tracks,
            room: sizes.room,
            cars: sizes.cars,
            trains: sizes.trains,
        };
        Draft { plan, head }
    }

    // 1, 2, 3, 4, 7 and 4: the bytes of the card, where the plan may be written on a buffer of this size.
    #[tactic(auto, unfolding(yard::specs::Card::writer_answer))]
    pub fn tested(&self, size: usize) -> Result<usize, Refusal>
        ensures { count_told result ≡ writer_answer limits (the_plan self.now.plan) size }
    {
        let plan = self.plan;
        intake::counts(yard::LIMITS, self.head.into())?;
        lists::lists(plan.night.lengths, plan.night.inbound)?;
        intake::list(
            ListName::Codes,
            plan.codes.len() == plan.night.inbound.len(),
        )?;
        lists::codes(plan.codes, plan.steps)?;
        let bytes = format::length(self.head);
        intake::list(ListName::Card, bytes <= size)?;
        Ok(bytes)
    }

    // Draws the card of a plan, with zero bits to the byte. Inlined into the call it took a twentieth longer, as its loops ran short of registers.
    #[inline(never)]
    pub fn draw(&self, card: &mut [u8])
        requires { IsDrawable (the_plan self.now.plan) (length card.old) }
        ensures { card.new ≡ card_over (the_plan self.now.plan) card.old }
    {
        let l = format::layout_of(self.head.edition);
        let mut pen = CardPen::new(card);
        draw_head(&mut pen, l, self.head);
        pen.puts(l.number, self.plan.night.lengths);
        pen.puts(l.number, self.plan.night.inbound);
        pen.puts(self.head.steps, self.plan.codes);
        pen.close();
    }
}
