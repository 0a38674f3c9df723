// The wear that a correction changes. Document 01, 'Tolerance, mean, correction'.
#![tactic(auto)]

ghost use Rattle.std.specs.Prelude.{◌≡◌, true, ◌≤◌, nat_abs, ◌+ℤ◌, ◌*ℤ◌};
ghost use Rattle.rules.specs.Stores.{wear_range};
ghost use Rattle.rules.specs.Tool.{factor, on_length, wear_on, with_wear_on};

use package::arguments::Probing;
use package::found::{Form, Kind};
use package::records::Wear;
use probes::sign_of;

// The h by which a wear grows for a unit of correction: inside kinds add, outside kinds subtract. Axis and direction are numbers here and below, since every number
// has an answer.
fn factor_of(k: Kind, direction: i64) -> i64
    ensures { result ≡ factor k direction }
{
    match k.form {
        Form::Plane => 2 * sign_of(direction),
        Form::Single | Form::Double => { if k.inside { 1 } else { -1 } }
    }
}

// Whether the length wear is corrected: by a plane on axis 3.
fn on_length(k: Kind, axis: i64) -> bool
    ensures { result ≡ on_length k axis }
{
    match k.form {
        Form::Plane => axis == 3,
        Form::Single | Form::Double => false,
    }
}

// One of a tool's two wears, by a flag, since the rules have it so.
fn wear_on(w: Wear, length: bool) -> i64
    ensures { (result ≡ wear_on length w) × (nat_abs result ≤ 2147483648) }
{
    let wear = if length { w.length } else { w.radius };
    i64::from(wear)
}

// The wear that is corrected, with the correction c added. No call of a user.
pub fn wear_left(w: Wear, k: Kind, a: Probing, c: i64) -> i64
    requires { nat_abs c ≤ 100000000 }
    ensures { result ≡ wear_on (on_length k a.axis) w +ℤ factor k a.direction *ℤ c }
{
    wear_on(w, on_length(k, a.axis)) + factor_of(k, a.direction) * c
}

// A tool's wears with the one that is corrected replaced; a cast, since try_from would bring an Err that no wear in range can meet. No call of a user.
pub fn wears_left(w: Wear, k: Kind, a: Probing, v: i64) -> Wear
    requires { wear_range v ≡ true }
    ensures { result ≡ with_wear_on (on_length k a.axis) w v }
{
    let wear = v as i32;
    if on_length(k, a.axis) {
        Wear { length: wear, ..w }
    } else {
        Wear { radius: wear, ..w }
    }
}
