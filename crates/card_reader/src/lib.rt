// The reader's tests, in document 01's order, and the lists of a card.
#![tactic(auto)]

ghost use Rattle.std.specs.Prelude.{◌≡◌, ◌≤◌, length, IsOk};
ghost use Rattle.yard.specs.Answers.{says, verdict};
ghost use Rattle.yard.specs.Bits.{Bytes};
ghost use Rattle.yard.specs.Card.{known, head_on, reader_verdict};
ghost use Rattle.yard.specs.Refusals.{test_told};
ghost use Rattle.format.specs.Format.{Bounded};
ghost use Rattle.card_reader.specs.Reading.{head_tests, size_tests, night_tests_on, last_tests, lengths_on, inbound_on, codes_on, Held};

use bits::fields::{self, Eye};
use yard::{Head, ListName, Refusal};

// The bytes of a card, and the numbers at its head.
#[derive(Clone, Copy)]
pub struct Card<'a> {
    pub bytes: &'a [u8],
    pub head: Head,
    ghost given: { Bytes bytes.now },
    ghost head_is: { head ≡ head_on bytes.now },
}

// The sizes of the three buffers that are lent for the lists of a card.
#[derive(Clone, Copy)]
pub struct Room {
    pub lengths: usize,
    pub inbound: usize,
    pub codes: usize,
}

// The numbers at the head of a card, one behind the other.
fn head(bytes: &[u8]) -> Head
    ensures { result ≡ head_on bytes.now }
{
    let mut eye = Eye::new(bytes, 0);
    let edition = eye.take(4);
    let l = format::layout_of(edition);
    Head {
        edition,
        mark: eye.take(l.mark),
        steps: eye.take(l.steps),
        tracks: eye.take(l.tracks),
        room: eye.take(l.room),
        cars: eye.take(l.cars),
        trains: eye.take(l.trains),
    }
}

// Whether a number is an edition's.
fn known(edition: usize) -> bool
    ensures { result ≡ known edition }
{
    matches!(edition, 1 | 2)
}

// 10, 11, 10 and 1: what the head alone shows, by the limits of its edition.
fn head_tests(size: usize, head: Head) -> Result<(), Refusal>
    ensures { test_told result ≡ verdict (head_tests size head) (says 0 0 0) }
{
    intake::ensure(1 <= size, Refusal::CardTooShort(1))?;
    intake::ensure(known(head.edition), Refusal::CardEdition(head.edition))?;
    let needed = format::head_length(head);
    intake::ensure(needed <= size, Refusal::CardTooShort(needed))?;
    intake::counts(format::limits_of(head.edition), head.into())
}

// 10 and 4: the card is whole, and the buffers for lengths, inbound and codes are long enough.
fn size_tests(size: usize, head: Head, room: Room) -> Result<(), Refusal>
    requires { Bounded head }
    ensures { test_told result ≡ verdict (size_tests size head room.lengths room.inbound room.codes) (says 0 0 0) }
{
    let right = format::length(head);
    intake::ensure(right <= size, Refusal::CardTooShort(right))?;
    intake::list(ListName::Lengths, head.trains <= room.lengths)?;
    intake::list(ListName::Inbound, head.cars <= room.inbound)?;
    intake::list(ListName::Codes, head.cars <= room.codes)
}

impl<'a> Card<'a> {
    // A card with the head that its bytes have.
    pub fn new(bytes: &'a [u8]) -> Card<'a>
        ensures { result.bytes.now ≡ bytes.now }
    {
        Card {
            bytes,
            head: head(bytes),
        }
    }

    // 2 and 3: reads lengths and inbound numbers, and tests these.
    fn lists(&self, lengths: &mut [u16], inbound: &mut [u16]) -> Result<(), Refusal>
        requires { Bounded self.now.head × (length lengths.old ≡ self.now.head.trains) × (length inbound.old ≡ self.now.head.cars) }
        ensures tests { test_told result ≡ verdict (night_tests_on self.now.bytes.now self.now.head) (says 0 0 0) }
        ensures lengths { lengths.new ≡ lengths_on self.now.bytes.now self.now.head }
        ensures inbound { inbound.new ≡ inbound_on self.now.bytes.now self.now.head }
    {
        let at = format::places_of(self.head);
        let width = format::layout_of(self.head.edition).number;
        Eye::new(self.bytes, at.lengths).fill(width, lengths);
        Eye::new(self.bytes, at.inbound).fill(width, inbound);
        lists::lists(lengths, inbound)
    }

    // 12 and 17: the card ends where its head says, and its edition is the one of its plan.
    fn last_tests(&self) -> Result<(), Refusal>
        requires { Bounded self.now.head }
        ensures { test_told result ≡ verdict (last_tests self.now.bytes.now self.now.head) (says 0 0 0) }
    {
        let at = format::places_of(self.head);
        let right = format::edition_for(self.head.mark != 0, self.head.into());
        let ended = fields::ends(self.bytes, at.end);
        let length = format::length(self.head);
        intake::ensure(ended, Refusal::CardEndWrong(length))?;
        intake::ensure(right == self.head.edition, Refusal::WrongEdition)
    }

    // The verdict on a card, for buffers of these sizes. The lists of an accepted card stand in two arrays, the trains' lengths and the
    // cars' order, so that a refused card writes nothing; they hold those of every head that is not refused.
    #[tactic(auto, using(crate::proofs::Reading::head_bounded))]
    pub fn verdict(&self, room: Room, trains: &mut [u16], order: &mut [u16]) -> Result<(), Refusal>
        requires { Bounded self.now.head → (self.now.head.trains ≤ length trains.old) × (self.now.head.cars ≤ length order.old) }
        ensures verdict { test_told result ≡ reader_verdict self.now.bytes.now room.lengths room.inbound room.codes }
        ensures held { IsOk result → Held self.now.bytes.now self.now.head trains.new order.new }
    {
        let head = self.head;
        head_tests(self.bytes.len(), head)?;
        size_tests(self.bytes.len(), head, room)?;
        let night = self.lists(&mut trains[..head.trains], &mut order[..head.cars]);
        night?;
        self.last_tests()
    }

    // The codes of a card.
    pub fn codes(&self, out: &mut [u16])
        requires { Bounded self.now.head × (length out.old ≡ self.now.head.cars) }
        ensures { out.new ≡ codes_on self.now.bytes.now self.now.head }
    {
        let at = format::places_of(self.head);
        Eye::new(self.bytes, at.codes).fill(self.head.steps, out);
    }
}
