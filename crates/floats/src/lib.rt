// Positions of what a float box reports. Request 2026-01.
#![tactic(auto)]

ghost use Rattle.std.specs.Prelude.{◌≡◌, true, ◌+◌, ◌-◌, ◌*◌, ◌/◌, ◌%◌, ◌^◌, ◌≤◌};
ghost use Rattle.std.specs.Float.Ieee.{of_bits};
ghost use Rattle.std.specs.Float.{binary32};
ghost use Rattle.signed.specs.Rounding.{halves_up};
ghost use Rattle.rules.specs.Readings as rules;
ghost use Rattle.rules.specs.Readings.{first_axis, uses_second, uses_third};
ghost use Rattle.package.specs.Given.{raws_by};
ghost use Rattle.package.specs.declared.arguments.Reading.{Reading};
ghost use Rattle.package.specs.declared.arguments.Reading.TheVariants.{Whole};
ghost use Rattle.floats.specs.Units.{units_in, reading_in, readings_in};

use package::arguments::{Probing, Raws, Reading, Report};
use package::found::{Form, Kind};

// What is read at a touch.
pub trait Raw: Copy {
    ghost reading: { Self → Reading };

    // The position that it gives on an axis, by whether it is used; none where a used float is not good. Flag and axis stand beside it, since an unused one gives 0 on
    // any axis.
    fn position(self, used: bool, axis: i64) -> Option<i64>
        ensures { result ≡ reading_in used (reading self) axis };
}

impl Raw for i64 {
    ghost reading = { λ z. Whole z };

    fn position(self, _used: bool, _axis: i64) -> Option<i64> {
        Some(self)
    }
}

impl Raw for Reading {
    ghost reading = { λ r. r };

    fn position(self, used: bool, axis: i64) -> Option<i64> {
        match self {
            Reading::Whole(z) => Some(z),
            Reading::Reported(f) => {
                if used {
                    units_of(picked(f, axis))
                } else {
                    Some(0)
                }
            }
        }
    }
}

// The u of a float that is at most 1000 mm and no less than 2^-17 mm, of its bits with no sign: halves up.
fn rounded_units(m: u32) -> u64
    requires { (922746880 ≤ m) × (m ≤ 1148846080) }
    ensures { (result ≡ halves_up (10000 * (8388608 + m % 8388608)) (2 ^ (150 - m / 8388608))) × (result ≤ 400000000000) }
{
    // Its value is digits / 2^k, with the leading digit that the bits leave out.
    let digits = (8388608 + m % 8388608) as u64;
    let k = 150 - m / 8388608;
    (((20000 * digits) >> k) + 1) / 2
}

// The u of the float with these bits, through integers alone; none where it is not good.
pub fn units_of_bits(b: u32) -> Option<i64>
    ensures { result ≡ units_in (of_bits binary32 b) }
{
    let m = b % 2147483648;
    // 1000.0, which the infinities and all that is not a number are above.
    if 1148846080 < m {
        return None;
    }
    // 2^-17, well below half a u.
    if m < 922746880 {
        return Some(0);
    }
    let n = rounded_units(m) as i64;
    if b < 2147483648 {
        return Some(n);
    }
    Some(0 - n)
}

// The u of a float; none where it is not good.
pub fn units_of(x: f32) -> Option<i64>
    ensures { result ≡ units_in x }
{
    if x.is_nan() {
        None
    } else {
        units_of_bits(f32::to_bits(x))
    }
}

// The float with these bits, not a number where they are none's.
pub fn float_of_bits(b: u32) -> f32
    ensures { result ≡ of_bits binary32 b }
{
    if 2139095040 < b % 2147483648 {
        return 0.0 / 0.0;
    }
    f32::from_bits(b)
}

// The float of a report on an axis by its number: z on every axis but 1 and 2.
pub fn picked(f: Report, axis: i64) -> f32
    ensures { result ≡ rules.picked f axis }
{
    match axis {
        1 => f.x,
        2 => f.y,
        _ => f.z,
    }
}

// The axis of the first two readings.
fn first_axis(k: Kind, a: Probing) -> i64
    ensures { result ≡ first_axis k a }
{
    match k.form {
        Form::Plane | Form::Single => a.axis,
        Form::Double => 1,
    }
}

fn uses_second(k: Kind) -> bool
    ensures { result ≡ uses_second k }
{
    !matches!(k.form, Form::Plane)
}

// Whether the third reading is used, and the fourth.
fn uses_third(k: Kind) -> bool
    ensures { result ≡ uses_third k }
{
    matches!(k.form, Form::Double)
}

// The positions that the raws of a measurement give; none where a used float is not good. Kind and arguments stand side by side, since a kind's number has a meaning of
// its own in either way of measuring.
pub fn positions_of<T: Raw>(k: Kind, a: Probing, q: Raws<T>) -> Option<Raws<i64>>
    ensures { result ≡ readings_in k a (raws_by T.reading q) }
{
    let axis = first_axis(k, a);
    let third = uses_third(k);
    Some(Raws {
        r1: q.r1.position(true, axis)?,
        r2: q.r2.position(uses_second(k), axis)?,
        r3: q.r3.position(third, 2)?,
        r4: q.r4.position(third, 2)?,
    })
}
