// Refusals: what a call answers when it says no. One type serves every library above.
ghost use Rattle.std.specs.Prelude.{◌≡◌};
ghost use Rattle.legal_time.specs.Refusals.{number_of, plain};

// Why a call was refused. `number` gives the number by which each cause is known.
#[derive(Clone, Copy, PartialEq, Eq, Debug)]
pub enum Cause {
    ClockAtEnd,
    EnergyTooLarge,
    CurveFull,
    StampOutOfRange,
    JournalFull,
    ProgrammeLength,
    ProgrammeMark,
    ProgrammeField,
    PowerTooLarge,
    OrderShape,
    OrderTime,
    OrderOverlap,
    OrderLimit,
    ReadingOpen,
    TooManyReadings,
    NoSuchLabel,
    BufferTooShort,
    FileLength,
    FileMark,
    FileField,
    // a fault that a licensee's own calendar states, by a number of its own
    Own(u32),
}

impl Cause {
    pub fn number(&self) -> u32
        ensures { result ≡ number_of self.now }
    {
        match *self {
            Cause::ClockAtEnd => 1,
            Cause::EnergyTooLarge => 2,
            Cause::CurveFull => 3,
            Cause::StampOutOfRange => 4,
            Cause::JournalFull => 5,
            Cause::ProgrammeLength => 6,
            Cause::ProgrammeMark => 7,
            Cause::ProgrammeField => 8,
            Cause::PowerTooLarge => 9,
            Cause::OrderShape => 10,
            Cause::OrderTime => 11,
            Cause::OrderOverlap => 12,
            Cause::OrderLimit => 13,
            Cause::ReadingOpen => 14,
            Cause::TooManyReadings => 15,
            Cause::NoSuchLabel => 16,
            Cause::BufferTooShort => 17,
            Cause::FileLength => 18,
            Cause::FileMark => 19,
            Cause::FileField => 20,
            Cause::Own(number) => number,
        }
    }
}

// A refusal: its cause, the grid that it concerns (0 for none) and the place of the fault (0 unless one is named). The side
// is a number, since it is only shown, and what it counts is the call's.
#[derive(Clone, Copy, PartialEq, Eq, Debug)]
pub struct Refusal {
    pub cause: Cause,
    pub side: u8,
    pub place: u32,
}

// A cause alone names no side and no place.
impl From<Cause> for Refusal {
    ghost from_gives = { λ cause refusal. refusal ≡ plain cause };

    fn from(cause: Cause) -> Refusal {
        Refusal {
            cause,
            side: 0,
            place: 0,
        }
    }
}
