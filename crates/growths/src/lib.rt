// How a zero offset grows on its axes. Document 01, 'Zero offset kinds'.
#![tactic(auto)]

ghost use Rattle.std.specs.Prelude.{◌≡◌, ◌≤◌, nat_abs};
ghost use Rattle.rules.specs.Zero.{corrects, growth};

use evaluation::difference_of;
use package::arguments::Probing;
use package::found::{Form, Kind};
use sizes::{MeasuredSizes, pair_on};

// Whether axis n of the offset is corrected. By the number here and below, since every number has an answer.
#[inline(always)]
fn corrects_on(k: Kind, a: Probing, n: i64) -> bool
    ensures { result ≡ corrects k a n }
{
    match k.form {
        Form::Double => (n == 1) | (n == 2),
        _ => a.axis == n,
    }
}

// The h by which axis n of the offset grows: a plane's by twice its deviation, a pair's by its shift. Kind, arguments and sizes stand side by side here and in the tests
// of an axis, since each may be any.
#[inline(always)]
pub fn growth_of(k: Kind, a: Probing, s: MeasuredSizes, n: i64) -> i64
    ensures { (result ≡ growth k a s.sizes n) × (nat_abs result ≤ 100000000) }
{
    if !corrects_on(k, a, n) {
        return 0;
    }
    match k.form {
        Form::Plane => 2 * difference_of(s.sizes.held, 0),
        _ => pair_on(s.sizes, n).shift,
    }
}
