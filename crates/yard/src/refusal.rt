// Why a call is refused, with what its answer tells as the details A and B. The number of each stands in specs/Refusals.antt.

// The counts that have a range.
#[derive(Clone, Copy, Debug, PartialEq, Eq)]
pub enum CountName {
    Cars,
    Trains,
    Tracks,
    Room,
    Steps,
    Stage,
    Passes,
}

// The lists that a call is given, and the buffers that it writes.
#[derive(Clone, Copy, Debug, PartialEq, Eq)]
pub enum ListName {
    Lengths,
    Inbound,
    Codes,
    Tracks,
    Places,
    Card,
}

// The two timings of a price.
#[derive(Clone, Copy, Debug, PartialEq, Eq)]
pub enum TimingName {
    Pull,
    Push,
}

#[derive(Clone, Copy, Debug, PartialEq, Eq)]
pub enum Refusal {
    // A count is out of its range.
    CountOutOfRange(CountName),
    // This train, the first such, has no car.
    EmptyTrain(usize),
    // The lengths of the trains do not add up to the cars.
    LengthsNotAdding,
    // At this place, the first such, stands no car's number, or one that was listed before, and there first.
    InboundWrong { place: usize, listed: Option<usize> },
    // A list has another length than its count, or a buffer is too short.
    ListOrBufferWrong(ListName),
    // The fewest steps, these, are above the limit.
    LimitTooLow(usize),
    // The first track that is overfilled: the step that pulls it, and the cars on it.
    TrackOverfilled { step: usize, cars: usize },
    // The code of this car, the first such, is not below 2 to the steps.
    CodeTooLarge(usize),
    // The first car that is pulled early, and the step that pulls it.
    CarPulledEarly { car: usize, step: usize },
    // This car, the lowest such, breaks the order of its train.
    TrainsOutOfOrder(usize),
    // The card has fewer bytes than are needed, these as far as known.
    CardTooShort(usize),
    // No card has this edition.
    CardEdition(usize),
    // Bits behind the last field are set, or the card has not this length.
    CardEndWrong(usize),
    // A timing is not allowed.
    TimingNotAllowed(TimingName),
    // This car of a closed night, the first such, has code 0.
    ZeroCode(usize),
    // The plan of the card belongs on a card of the other edition.
    WrongEdition,
}
