// What refuses a call, by the paper's 'Alarm numbers'; 100 and 101 are of what a caller lends.
ghost use Rattle.std.specs.Prelude.{◌≡◌};
ghost use Rattle.package.specs.Refusals.{number, refusal_in};

#[derive(Clone, Copy, Debug, PartialEq, Eq)]
pub enum Refusal {
    NoRoom = 1,
    NoSuchNumber = 2,
    OutsideRange = 3,
    WrongLimits = 4,
    Uncalibrated = 5,
    NoWidth = 6,
    BeyondTsa = 7,
    BeyondTdif = 8,
    LeavesRange = 9,
    MalformedLine = 10,
    EmptyJob = 11,
    WrongJob = 12,
    BadFloat = 13,
    WrongArea = 100,
    WrongArguments = 101,
}

impl From<Refusal> for u32 {
    ghost from_gives = { λ r n. n ≡ number r };

    fn from(refusal: Refusal) -> u32 {
        refusal as u32
    }
}

// The refusal number of a call, 0 when done.
pub fn refusal_in<T: Drop>(called: Result<T, Refusal>) -> u32
    ensures { result ≡ refusal_in called }
{
    match called {
        Ok(_) => 0,
        Err(refusal) => refusal.into(),
    }
}
