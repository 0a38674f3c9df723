// What the calls are given. At each touch a T is read: a whole position, or a reading. Kinds, axes and directions are numbers, any at all, until they are tested.
ghost use Rattle.std.specs.Prelude.{◌≡◌};
ghost use Rattle.package.specs.Given.{calibration_with, tool_with, zero_with};

// What a calibration is given.
#[derive(Clone, Copy)]
pub struct Calibration<T> {
    pub probe: i64,
    pub axis: i64,
    pub direction: i64,
    pub setpoint: i64,
    pub raw: T,
    pub tzl: i64,
    pub tsa: i64,
}

// The raws of a measurement.
#[derive(Clone, Copy)]
pub struct Raws<T> {
    pub r1: T,
    pub r2: T,
    pub r3: T,
    pub r4: T,
}

// What both ways of measuring are given beside their raws: c1 and c2 are set centres.
#[derive(Clone, Copy)]
pub struct Probing {
    pub kind: i64,
    pub probe: i64,
    pub axis: i64,
    pub direction: i64,
    pub setpoint: i64,
    pub c1: i64,
    pub c2: i64,
}

#[derive(Clone, Copy)]
pub struct Limits {
    pub tzl: i64,
    pub tmv: i64,
    pub tul: i64,
    pub tll: i64,
    pub tdif: i64,
    pub tsa: i64,
}

// What a measurement with tool offset is given; k is the weighting factor.
#[derive(Clone, Copy)]
pub struct ToolMeasurement<T> {
    pub probing: Probing,
    pub raws: Raws<T>,
    pub tool: i64,
    pub ev: i64,
    pub mv: i64,
    pub k: i64,
    pub limits: Limits,
}

// What a measurement with zero offset is given.
#[derive(Clone, Copy)]
pub struct ZeroMeasurement<T> {
    pub probing: Probing,
    pub raws: Raws<T>,
    pub offset: i64,
    pub tsa: i64,
}

// X, Y and Z as a float box reports them together, in millimetres.
#[derive(Clone, Copy)]
pub struct Report {
    pub x: f32,
    pub y: f32,
    pub z: f32,
}

// What was read at a touch: a whole position in u, or a report.
#[derive(Clone, Copy)]
pub enum Reading {
    Whole(i64),
    Reported(Report),
}

impl<T: Copy> Calibration<T> {
    // The same with another raw; a method of each of the three structs, since each has its own fields.
    pub fn with_raw<U>(self, raw: U) -> Calibration<U>
        ensures { result ≡ calibration_with self raw }
    {
        Calibration {
            probe: self.probe,
            axis: self.axis,
            direction: self.direction,
            setpoint: self.setpoint,
            raw,
            tzl: self.tzl,
            tsa: self.tsa,
        }
    }
}

impl<T: Copy> ToolMeasurement<T> {
    pub fn with_raws<U>(self, raws: Raws<U>) -> ToolMeasurement<U>
        ensures { result ≡ tool_with self raws }
    {
        ToolMeasurement {
            probing: self.probing,
            raws,
            tool: self.tool,
            ev: self.ev,
            mv: self.mv,
            k: self.k,
            limits: self.limits,
        }
    }
}

impl<T: Copy> ZeroMeasurement<T> {
    pub fn with_raws<U>(self, raws: Raws<U>) -> ZeroMeasurement<U>
        ensures { result ≡ zero_with self raws }
    {
        ZeroMeasurement {
            probing: self.probing,
            raws,
            offset: self.offset,
            tsa: self.tsa,
        }
    }
}
