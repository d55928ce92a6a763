// The night card in both editions: its reader and its writer.
#![tactic(auto)]

ghost use Rattle.std.specs.Prelude.{◌≡◌, ◌≤◌};
ghost use Rattle.yard.specs.Limits.{limits};
ghost use Rattle.yard.specs.Lent.{the_plan};
ghost use Rattle.yard.specs.Refusals.{card_told, count_told};
ghost use Rattle.yard.specs.Card.{Reads, Writes};
ghost use Rattle.format.specs.Format.{Bounded};

use card_reader::{Card, Room};
use card_writer::Draft;
use yard::{Head, Plan, Refusal};

// Reads a card by way of two arrays for its lists: they have room for those of every head that is not refused.
#[tactic(auto, using(card_reader::proofs::Reading::accepted_room, card_reader::proofs::Reading::length_front))]
fn read_with<const TRAINS: usize, const CARS: usize>(
    card: &Card,
    lengths: &mut [u16],
    inbound: &mut [u16],
    codes: &mut [u16],
) -> Result<Head, Refusal>
    requires arrays { (TRAINS ≤ limits.trains) × (CARS ≤ limits.cars) }
    requires room { Bounded card.now.head → (card.now.head.trains ≤ TRAINS) × (card.now.head.cars ≤ CARS) }
    ensures { Reads card.now.bytes.now lengths.old inbound.old codes.old
        (card_told result) lengths.new inbound.new codes.new }
{
    let head = card.head;
    let room = Room {
        lengths: lengths.len(),
        inbound: inbound.len(),
        codes: codes.len(),
    };
    let mut trains = [0u16; TRAINS];
    let mut order = [0u16; CARS];
    let verdict = card.verdict(room, &mut trains, &mut order);
    verdict?;
    intake::copy(&trains, head.trains, lengths);
    intake::copy(&order, head.cars, inbound);
    card.codes(&mut codes[..head.cars]);
    Ok(head)
}

// Reads a card: its lengths, inbound numbers and codes into the buffers, and its head as what it tells. A card of few cars and trains
// is read by way of small arrays, which cost less.
pub fn read(
    card: &[u8],
    lengths: &mut [u16],
    inbound: &mut [u16],
    codes: &mut [u16],
) -> Result<Head, Refusal>
    ensures { Reads card.now lengths.old inbound.old codes.old
        (card_told result) lengths.new inbound.new codes.new }
{
    let card = Card::new(card);
    if card.head.trains <= yard::FIRST_TRAINS && card.head.cars <= yard::FIRST_CARS {
        read_with::<{ yard::FIRST_TRAINS }, { yard::FIRST_CARS }>(&card, lengths, inbound, codes)
    } else {
        read_with::<{ yard::TRAINS }, { yard::CARS }>(&card, lengths, inbound, codes)
    }
}

// Writes the card of a plan, and tells its length in bytes.
pub fn write(plan: Plan, card: &mut [u8]) -> Result<usize, Refusal>
    ensures { Writes (the_plan plan.entry) card.old (count_told result) card.new }
{
    let draft = Draft::new(plan);
    let bytes = draft.tested(card.len())?;
    draft.draw(card);
    Ok(bytes)
}
