// What a call tells where it is done, and the answer that it gives then or where it is refused.
ghost use Rattle.std.specs.Prelude.{◌≡◌};
ghost use Rattle.yard.specs.Refusals.{detail_of_count, detail_of_list, detail_of_timing, refused, plan_told, check_told, count_told, price_told, card_told};

use crate::refusal::{CountName, ListName, Refusal, TimingName};
use crate::{Answer, CardAnswer, Head, PriceAnswer};

// The plan that is found for a night: its steps, and the cars that roll in.
#[derive(Clone, Copy, Debug, PartialEq, Eq)]
pub struct Derived {
    pub steps: usize,
    pub passes: usize,
}

// A plan that is accepted: the cars that roll in, and those of the fullest pull.
#[derive(Clone, Copy, Debug, PartialEq, Eq)]
pub struct Checked {
    pub passes: usize,
    pub fullest: usize,
}

impl From<CountName> for usize {
    ghost from_gives = { λ name detail. detail ≡ detail_of_count name };

    fn from(name: CountName) -> usize {
        match name {
            CountName::Cars => 1,
            CountName::Trains => 2,
            CountName::Tracks => 3,
            CountName::Room => 4,
            CountName::Steps => 5,
            CountName::Stage => 6,
            CountName::Passes => 7,
        }
    }
}

impl From<ListName> for usize {
    ghost from_gives = { λ name detail. detail ≡ detail_of_list name };

    fn from(name: ListName) -> usize {
        match name {
            ListName::Lengths => 1,
            ListName::Inbound => 2,
            ListName::Codes => 3,
            ListName::Tracks => 4,
            ListName::Places => 5,
            ListName::Card => 6,
        }
    }
}

impl From<TimingName> for usize {
    ghost from_gives = { λ name detail. detail ≡ detail_of_timing name };

    fn from(name: TimingName) -> usize {
        match name {
            TimingName::Pull => 1,
            TimingName::Push => 2,
        }
    }
}

impl From<Refusal> for Answer {
    ghost from_gives = { λ refusal answer. answer ≡ refused refusal };

    fn from(refusal: Refusal) -> Answer {
        let (number, a, b) = match refusal {
            Refusal::CountOutOfRange(name) => (1, name.into(), 0),
            Refusal::EmptyTrain(train) => (2, train, 0),
            Refusal::LengthsNotAdding => (2, 0, 0),
            Refusal::InboundWrong { place, listed } => (3, place, listed.unwrap_or(0)),
            Refusal::ListOrBufferWrong(name) => (4, name.into(), 0),
            Refusal::LimitTooLow(steps) => (5, steps, 0),
            Refusal::TrackOverfilled { step, cars } => (6, step, cars),
            Refusal::CodeTooLarge(car) => (7, car, 0),
            Refusal::CarPulledEarly { car, step } => (8, car, step),
            Refusal::TrainsOutOfOrder(car) => (9, car, 0),
            Refusal::CardTooShort(bytes) => (10, bytes, 0),
            Refusal::CardEdition(edition) => (11, edition, 0),
            Refusal::CardEndWrong(bytes) => (12, bytes, 0),
            Refusal::TimingNotAllowed(name) => (13, name.into(), 0),
            Refusal::ZeroCode(car) => (14, car, 0),
            Refusal::WrongEdition => (17, 0, 0),
        };
        Answer { number, a, b }
    }
}

impl From<Result<Derived, Refusal>> for Answer {
    ghost from_gives = { λ outcome answer. answer ≡ plan_told outcome };

    fn from(outcome: Result<Derived, Refusal>) -> Answer {
        match outcome {
            Ok(plan) => Answer {
                number: 0,
                a: plan.steps,
                b: plan.passes,
            },
            Err(refusal) => refusal.into(),
        }
    }
}

impl From<Result<Checked, Refusal>> for Answer {
    ghost from_gives = { λ outcome answer. answer ≡ check_told outcome };

    fn from(outcome: Result<Checked, Refusal>) -> Answer {
        match outcome {
            Ok(plan) => Answer {
                number: 0,
                a: plan.passes,
                b: plan.fullest,
            },
            Err(refusal) => refusal.into(),
        }
    }
}

// The passes of a replay, or the bytes of a card.
impl From<Result<usize, Refusal>> for Answer {
    ghost from_gives = { λ outcome answer. answer ≡ count_told outcome };

    fn from(outcome: Result<usize, Refusal>) -> Answer {
        match outcome {
            Ok(count) => Answer {
                number: 0,
                a: count,
                b: 0,
            },
            Err(refusal) => refusal.into(),
        }
    }
}

impl From<Result<f64, Refusal>> for PriceAnswer {
    ghost from_gives = { λ outcome answer. answer ≡ price_told outcome };

    fn from(outcome: Result<f64, Refusal>) -> PriceAnswer {
        let (answer, price) = match outcome {
            Ok(price) => (
                Answer {
                    number: 0,
                    a: 0,
                    b: 0,
                },
                price,
            ),
            Err(refusal) => (refusal.into(), 0.0),
        };
        PriceAnswer {
            number: answer.number,
            a: answer.a,
            b: answer.b,
            price,
        }
    }
}

impl From<Result<Head, Refusal>> for CardAnswer {
    ghost from_gives = { λ outcome answer. answer ≡ card_told outcome };

    fn from(outcome: Result<Head, Refusal>) -> CardAnswer {
        match outcome {
            Ok(head) => CardAnswer {
                number: 0,
                a: 0,
                b: 0,
                mark: head.mark,
                steps: head.steps,
                tracks: head.tracks,
                room: head.room,
                cars: head.cars,
                trains: head.trains,
            },
            Err(refusal) => {
                let answer = Answer::from(refusal);
                CardAnswer {
                    number: answer.number,
                    a: answer.a,
                    b: answer.b,
                    mark: 0,
                    steps: 0,
                    tracks: 0,
                    room: 0,
                    cars: 0,
                    trains: 0,
                }
            }
        }
    }
}
