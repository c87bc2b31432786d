// Why a call is refused.
ghost use Rattle.std.specs.Prelude.{◌≡◌};
ghost use Rattle.state.specs.Refusals.{answered, number, told};

// Each refusal by what is wrong, with the number that callers get for it (docs/NUMBERS.md).
#[derive(Clone, Copy, PartialEq, Eq, Debug)]
pub enum Refusal {
    // the job: lengths that do not fit together or are too many, the size, an option, an outer loop of under three points, a
    // coordinate, an area that is not positive
    Shape = 1,
    Size = 2,
    Options = 3,
    OuterLoop = 4,
    Coordinate = 5,
    Area = 6,
    // a loop: under three points left, too many nodes so far
    FewPoints = 7,
    ManyNodes = 10,
    // a call on a state: no such front, no room, a row that fails a check, several fronts, a front that has no fan, a state
    // that none is, no centre, a corner of a fan's quad
    NoFront = 20,
    Full = 21,
    Row = 22,
    Fronts = 23,
    FanFront = 24,
    State = 25,
    Centre = 26,
    Corner = 27,
}

impl Refusal {
    // as: Rust has no From between an enum and its numbers
    pub fn number(self) -> u32
        ensures { result ≡ number self }
    {
        self as u32
    }
}

// The same answer, a refusal by its number: for who writes the answer, and takes any number.
pub fn numbered<T>(answer: Result<T, Refusal>) -> Result<T, u32>
    ensures { told result ≡ answered answer }
{
    match answer {
        Ok(value) => Ok(value),
        Err(refusal) => Err(refusal.number()),
    }
}
