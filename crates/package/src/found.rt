// What a measurement reads, finds, decides and answers.
ghost use Rattle.std.specs.Prelude.{◌≡◌};
ghost use Rattle.package.specs.Numbers.{branch_number, verdict_number};

use crate::records::{Offset, Probe, Wear};

// The branch of a measurement with zero offset: a number beside the enum Branch, none of whose branches it can be.
pub const ZERO_BRANCH: u32 = 6;

// The verdicts of a measurement, by the paper's numbers.
#[derive(Clone, Copy, Debug, PartialEq, Eq)]
pub enum Verdict {
    InTolerance = 0,
    Oversize = 1,
    Undersize = 2,
}

// What a kind of measurement touches: one surface, a pair on axis 1 or 2, or a pair on each of both.
#[derive(Clone, Copy)]
pub enum Form {
    Plane,
    Single,
    Double,
}

// A kind of measurement: inside kinds touch low in the negative direction, outside kinds in the positive.
#[derive(Clone, Copy)]
pub struct Kind {
    pub form: Form,
    pub inside: bool,
}

// The branches of a measurement with tool offset, by the paper's numbers.
#[derive(Clone, Copy, Debug, PartialEq, Eq)]
pub enum Branch {
    One = 1,
    Two = 2,
    Three = 3,
    Four = 4,
    Five = 5,
}

// What a pair measures: width in u, centre and shift in h, and its set centre in u. All 0 where none is measured.
#[derive(Clone, Copy)]
pub struct Pair {
    pub width: i64,
    pub centre: i64,
    pub shift: i64,
    pub set: i64,
}

// A measured size, and the setpoint that it is held against.
#[derive(Clone, Copy)]
pub struct Held {
    pub size: i64,
    pub setpoint: i64,
}

// The measured size with its setpoint, and the pairs on axes 1 and 2.
#[derive(Clone, Copy)]
pub struct Sizes {
    pub held: Held,
    pub abscissa: Pair,
    pub ordinate: Pair,
}

// What of the records allows a measurement: directions calibrated, pairs with a width, limits kept, ranges kept.
#[derive(Clone, Copy)]
pub struct Tests {
    pub calibrated: bool,
    pub pairs: bool,
    pub tsa: bool,
    pub tdif: bool,
    pub range: bool,
}

// The branch of a deviation, the correction c and the mean that it leaves.
#[derive(Clone, Copy)]
pub struct Decision {
    pub branch: Branch,
    pub correction: i64,
    pub mean: i64,
}

// What a measurement with tool offset finds: whether its directions are calibrated, its sizes, the EV, D, what is decided on it, and the
// wear that is corrected, after it.
#[derive(Clone, Copy)]
pub struct Found {
    pub calibrated: bool,
    pub sizes: Sizes,
    pub ev: i64,
    pub deviation: i64,
    pub decision: Decision,
    pub wear: i64,
}

// The records that a measurement with tool offset reads: its probe, the empirical and mean values that it names, 0 for none, and its tool's wears.
#[derive(Clone, Copy)]
pub struct ToolRecords {
    pub probe: Probe,
    pub ev: i16,
    pub mean: i16,
    pub wear: Wear,
}

// The records that a measurement with zero offset reads.
#[derive(Clone, Copy)]
pub struct ZeroRecords {
    pub probe: Probe,
    pub offset: Offset,
}

// What a measurement comes to: branch, verdict, the deviation of OVR[16] and the correction c. Branch and verdict are numbers, since a call that does not measure
// answers 0 for both.
#[derive(Clone, Copy, Debug, Default, PartialEq, Eq)]
pub struct Evaluation {
    pub branch: u32,
    pub verdict: u32,
    pub deviation: i32,
    pub correction: i32,
}

impl From<Branch> for u32 {
    ghost from_gives = { λ b n. n ≡ branch_number b };

    fn from(branch: Branch) -> u32 {
        branch as u32
    }
}

impl From<Verdict> for u32 {
    ghost from_gives = { λ v n. n ≡ verdict_number v };

    fn from(verdict: Verdict) -> u32 {
        verdict as u32
    }
}
