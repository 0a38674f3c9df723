// The kinds of measurement, and the surfaces that each touches. Document 01, 'Measured sizes'.
#![tactic(auto)]

ghost use Rattle.std.specs.Prelude.{◌≡◌, Bool, cond, pos};
ghost use Rattle.lists.specs.Each.{Each};
ghost use Rattle.package.specs.declared.found.Form.TheVariants.{Single};
ghost use Rattle.package.specs.Ways.{axis_number, direction_number};
ghost use Rattle.rules.specs.Kinds.{kind, tool_kind, tool_kind_number};
ghost use Rattle.rules.specs.Sizes.{pairs};
ghost use Rattle.kinds.specs.Touches.{known, across, span, TouchesIf};

use package::arguments::Probing;
use package::found::{Form, Kind};
use package::refusals::Refusal;
use package::ways::{Axis, Direction, Way};
use signed::in_range;

// The greatest number of a kind with tool offset.
const GREATEST_KIND: i64 = 4;

// A surface that is touched: the way in which it is touched, and the number of its raw, as the rules have it.
#[derive(Clone, Copy)]
pub struct Touch {
    pub way: Way,
    pub number: i64,
}

// A pair of surfaces across an axis, with its set centre.
#[derive(Clone, Copy)]
pub struct Across {
    pub low: Touch,
    pub high: Touch,
    pub set: i64,
}

// The pairs of a hole or shaft, on axes 1 and 2.
#[derive(Clone, Copy)]
pub struct Both {
    pub abscissa: Across,
    pub ordinate: Across,
}

// What a measurement touches: the surface of a plane, the pair of a groove or web, or both pairs of a hole or shaft.
#[derive(Clone, Copy)]
pub enum Surfaces {
    Plane(Touch),
    Pair(Across),
    Pairs(Both),
}

// The kind of a number with tool offset; a plane where there is none, as the rules have it.
pub fn kind_of(n: i64) -> Kind
    ensures { result ≡ tool_kind n }
{
    let (form, inside) = match n {
        1 => (Form::Double, true),
        2 => (Form::Double, false),
        3 => (Form::Single, true),
        4 => (Form::Single, false),
        _ => (Form::Plane, false),
    };
    Kind { form, inside }
}

// The same, where its number is one. Not TryFrom, since with zero offset the kinds have other numbers.
#[inline(always)]
pub fn tool_kind(n: i64) -> Result<Kind, Refusal>
    ensures { result ≡ known (tool_kind_number n) (tool_kind n) }
{
    if !in_range(n, 0, GREATEST_KIND) {
        return Err(Refusal::NoSuchNumber);
    }
    Ok(kind_of(n))
}

// The directions in which the low and the high surface of a pair are touched: inside kinds touch low in the negative, outside kinds in the positive.
fn directions(inside: bool) -> (Direction, Direction)
    ensures { (direction_number result.0 ≡ cond inside (pos 1) (pos 0)) × (direction_number result.1 ≡ cond inside (pos 0) (pos 1)) }
{
    if inside {
        return (Direction::Negative, Direction::Positive);
    }
    (Direction::Positive, Direction::Negative)
}

// A pair across an axis, by the numbers of its raws, low and high, and its set centre.
#[inline(always)]
fn span(inside: bool, axis: Axis, raws: (i64, i64), set: i64) -> Across
    ensures { across result ≡ span inside (axis_number axis) raws.0 raws.1 set }
{
    let (low, high) = directions(inside);
    let touch = |direction: Direction, number: i64| Touch {
        way: Way { axis, direction },
        number,
    };
    Across {
        low: touch(low, raws.0),
        high: touch(high, raws.1),
        set,
    }
}

// The set centre of a groove or web, by its axis: a number, since every one has an answer.
pub fn single_centre(a: Probing) -> i64
    ensures { (inside : Bool) → Each (λ p. p.set ≡ result) (pairs (kind Single inside) a) }
{
    match a.axis {
        1 => a.c1,
        2 => a.c2,
        _ => 0,
    }
}

// What a measurement touches. No axis and no direction but those that its kind uses is looked at.
#[inline(always)]
pub fn surfaces_of(k: Kind, a: Probing) -> Result<Surfaces, Refusal>
    ensures { TouchesIf k a result }
{
    match k.form {
        Form::Plane => Ok(Surfaces::Plane(Touch {
            way: Way::named(a.axis, a.direction)?,
            number: 1,
        })),
        Form::Single => match a.axis {
            1 => Ok(Surfaces::Pair(span(k.inside, Axis::First, (1, 2), a.c1))),
            2 => Ok(Surfaces::Pair(span(k.inside, Axis::Second, (1, 2), a.c2))),
            _ => Err(Refusal::NoSuchNumber),
        },
        Form::Double => Ok(Surfaces::Pairs(Both {
            abscissa: span(k.inside, Axis::First, (1, 2), a.c1),
            ordinate: span(k.inside, Axis::Second, (3, 4), a.c2),
        })),
    }
}
