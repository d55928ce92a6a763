// The lists of a card, as they are read.
ghost use Rattle.report.specs.Programs.{ReadsPlan};

use yard::{Night, Plan, Refusal};

// Room for the lists of any card.
#[derive(Drop)]
pub struct Lists {
    lengths: [u16; yard::TRAINS],
    inbound: [u16; yard::CARS],
    codes: [u16; yard::CARS],
}

impl Lists {
    pub fn new() -> Lists {
        Lists {
            lengths: [0; yard::TRAINS],
            inbound: [0; yard::CARS],
            codes: [0; yard::CARS],
        }
    }

    // The plan of a card.
    pub fn read(&mut self, card: &[u8]) -> Result<Plan<'_>, Refusal>
        ensures { ReadsPlan card.now result }
    {
        let head = card::read(card, &mut self.lengths, &mut self.inbound, &mut self.codes)?;
        let lengths = &self.lengths[..head.trains];
        let inbound = &self.inbound[..head.cars];
        let codes = &self.codes[..head.cars];
        let night = Night {
            lengths,
            inbound,
            closed: head.mark != 0,
            tracks: head.tracks,
            room: head.room,
        };
        let steps = head.steps;
        Ok(Plan {
            night,
            steps,
            codes,
        })
    }
}
