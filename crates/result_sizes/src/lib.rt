// The numbers of the result array that both ways of measuring have. Document 01, 'Result array'.
#![tactic(auto)]

ghost use Rattle.std.specs.Prelude.{◌≡◌, ◌≤◌, pos, nat_abs};
ghost use Rattle.rules.specs.Kinds.{by_form};
ghost use Rattle.rules.specs.Results.{array, size_entries};
ghost use Rattle.result_sizes.specs.ResultSizes.{Small};

use package::arguments::Probing;
use package::found::{Form, Kind, Sizes};

// A number small enough for the array. No call of a user. A cast, since try_from would bring an Err that no caller can meet.
pub fn narrow(v: i64) -> i32
    requires { nat_abs v ≤ 1000000000 }
    ensures { result ≡ v }
{
    v as i32
}

// The number of the manual's cycle: 978 for a plane, 977 for pairs.
fn cycle_of(form: Form) -> i32
    ensures { result ≡ by_form form (pos 978) (pos 977) (pos 977) }
{
    match form {
        Form::Plane => 978,
        _ => 977,
    }
}

// The numbers that both ways of measuring have, with 0 in all other places. No call of a user.
pub fn size_numbers(k: Kind, a: Probing, s: Sizes, ev: i64) -> [i32; 42]
    requires { Small (size_entries k a s ev) }
    ensures { result ≡ array (size_entries k a s ev) }
{
    let form = k.form;
    // Place by place, as the manual numbers them: a literal of 42 numbers would show no place.
    let mut n = [0i32; 42];
    n[0] = narrow(s.held.setpoint);
    n[1] = narrow(s.abscissa.set);
    n[2] = narrow(s.ordinate.set);
    n[4] = narrow(s.held.size - ev);
    n[5] = narrow(s.abscissa.centre);
    n[6] = narrow(s.ordinate.centre);
    n[16] = narrow(s.held.size - ev - s.held.setpoint);
    n[17] = narrow(s.abscissa.shift);
    n[18] = narrow(s.ordinate.shift);
    n[34] = cycle_of(form);
    n[35] = narrow(a.kind);
    n[37] = narrow(a.probe);
    n
}
