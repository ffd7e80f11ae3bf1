// Internal: the causes of refusal, as the error that calls give and as lists of conditions, and the sizes of records, which every call over a record
// looks at.
#![tactic(auto)]

ghost use Rattle.std.specs.Prelude.{◌≡◌};
ghost use Rattle.causes.specs.Refusal.{cause_number, cause_in};
ghost use Rattle.causes.specs.Sizes.{record_cause};

// Why a call is refused: a cause stands at its number. Any-hit has an error of its own for number 11, which tells the length needed.
#[derive(Clone, Copy, Debug, PartialEq, Eq, PartialOrd, Ord)]
pub enum Refusal {
    LengthUnfit = 1,
    TooMany = 2,
    LimitOver = 3,
    SliceShort = 4,
    LinkOutside = 5,
    BoxRefused = 6,
    NotOneTree = 7,
    TooDeep = 8,
    RayRefused = 9,
    Fault = 10,
    LossesUnfit = 12,
    IndexOver = 13,
    SpansUnfit = 14,
}

impl From<Refusal> for u32 {
    ghost from_gives = { λ refusal number. number ≡ cause_number refusal };

    // The number of the cause.
    fn from(refusal: Refusal) -> u32 {
        refusal as u32
    }
}

// Causes 1 and 2, for a record's length and a number of positions.
pub fn record_sizes(bytes: usize, n: usize) -> Result<(), Refusal>
    ensures { cause_in result ≡ record_cause bytes n }
{
    if bytes % 80 != 0 {
        return Err(Refusal::LengthUnfit);
    }
    if n > 65536 {
        return Err(Refusal::TooMany);
    }
    let long = bytes / 80 > 65535;
    if long {
        return Err(Refusal::TooMany);
    }
    Ok(())
}
