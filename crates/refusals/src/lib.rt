// Workerwax, crate `refusals`: the refusals of every entry, by name, and the numbers that C is told for them.
//
// What does it do? An entry answers `Ok`, or an `Err` that holds one of these names. `code` makes of it what C gets: 0, or the number of
// the refusal.
// How does it work? The numbers are those of "What comes back" in the scope paper, and stand here and in specs/ alone.
#![tactic(auto)]

ghost use Rattle.std.specs.Prelude.{◌≡◌};
ghost use Rattle.refusals.specs.Numbers.{number, code};

// Why a call is refused, and the number that C is told for it. None has 15.
#[derive(Clone, Copy, Debug, PartialEq, Eq)]
pub enum Refusal {
    UnknownRole = 1,
    UnknownRate,
    DataRateOutOfRange,
    UnknownShaping,
    UnstatedMark,
    DeniedDataRate,
    UnfitState,
    WrongLength,
    NotABit,
    OutOfRange,
    UnsentRings,
    UnsentStep,
    NotPermitted,
    NumberTooLarge,
    WrongPicture = 16,
    WrongCheck,
    FieldOutOfRange,
}

impl Refusal {
    // The number of a refusal.
    pub fn number(self) -> u32
        ensures { result ≡ number self }
    {
        self as u32
    }
}

// What C is told of an outcome: 0 where it is done, and otherwise the number of the refusal.
pub fn code<T: Copy>(outcome: Result<T, Refusal>) -> u32
    ensures { result ≡ code outcome }
{
    match outcome {
        Ok(_) => 0,
        Err(refusal) => refusal.number(),
    }
}
