// The records of each store, one by one. Document 01, 'Units and stores'.
ghost use Rattle.std.specs.Prelude.{◌≡◌};
ghost use Rattle.package.specs.StatusAnswers.{status_by};

use crate::refusals::Refusal;

// Six trigger values, and a bit for each direction calibrated.
#[derive(Clone, Copy)]
pub struct Probe {
    pub triggers: [i32; 6],
    pub status: u8,
}

// Empirical values EV and mean values MV.
#[derive(Clone, Copy)]
pub struct Memory {
    pub empirical: [i16; 20],
    pub means: [i16; 20],
}

// The two wears of a tool.
#[derive(Clone, Copy)]
pub struct Wear {
    pub radius: i32,
    pub length: i32,
}

// A zero offset on the three axes.
#[derive(Clone, Copy)]
pub struct Offset {
    pub axes: [i32; 3],
}

// The bits of a probe's status and the number of directions calibrated.
#[derive(Clone, Copy, Debug, PartialEq, Eq)]
pub struct Directions {
    pub bits: u32,
    pub count: u32,
}

// The same as C is answered: a refusal number, 0 when done, and zeros where it is refused.
#[repr(C)]
#[derive(Clone, Copy)]
pub struct Status {
    pub refusal: u32,
    pub bits: u32,
    pub count: u32,
}

impl From<Result<Directions, Refusal>> for Status {
    ghost from_gives = { λ read s. s ≡ status_by read };

    fn from(read: Result<Directions, Refusal>) -> Status {
        match read {
            Ok(Directions { bits, count }) => Status {
                refusal: 0,
                bits,
                count,
            },
            Err(refusal) => Status {
                refusal: refusal.into(),
                bits: 0,
                count: 0,
            },
        }
    }
}
