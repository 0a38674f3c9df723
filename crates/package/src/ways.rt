// The axes and directions of a touch, by the paper's numbers.
ghost use Rattle.std.specs.Prelude.{◌≡◌};
ghost use Rattle.package.specs.Ways.{AxisNamed, DirectionNamed, WayNamed};

use crate::refusals::Refusal;

#[derive(Clone, Copy, Debug, PartialEq, Eq)]
pub enum Axis {
    First = 1,
    Second = 2,
    Third = 3,
}

#[derive(Clone, Copy, Debug, PartialEq, Eq)]
pub enum Direction {
    Positive = 0,
    Negative = 1,
}

// The axis along which a surface is touched, and the direction.
#[derive(Clone, Copy, Debug, PartialEq, Eq)]
pub struct Way {
    pub axis: Axis,
    pub direction: Direction,
}

impl Way {
    // The way of an axis and a direction by their numbers, which may be any.
    pub fn named(axis: i64, direction: i64) -> Result<Way, Refusal>
        ensures { WayNamed axis direction result }
    {
        Ok(Way {
            axis: Axis::try_from(axis)?,
            direction: Direction::try_from(direction)?,
        })
    }
}

impl TryFrom<i64> for Axis {
    type Error = Refusal;

    ghost try_from_gives = { λ n r. AxisNamed n r };

    fn try_from(number: i64) -> Result<Axis, Refusal> {
        match number {
            1 => Ok(Axis::First),
            2 => Ok(Axis::Second),
            3 => Ok(Axis::Third),
            _ => Err(Refusal::NoSuchNumber),
        }
    }
}

impl TryFrom<i64> for Direction {
    type Error = Refusal;

    ghost try_from_gives = { λ n r. DirectionNamed n r };

    fn try_from(number: i64) -> Result<Direction, Refusal> {
        match number {
            0 => Ok(Direction::Positive),
            1 => Ok(Direction::Negative),
            _ => Err(Refusal::NoSuchNumber),
        }
    }
}
