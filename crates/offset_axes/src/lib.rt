// An axis of an offset: its growth held against TSA, what it is after, and whether that is in range. Document 01, 'Zero offset kinds'.
#![tactic(auto)]

ghost use Rattle.std.specs.Prelude.{◌≡◌, ◌≤◌, nat_abs, ◌+ℤ◌};
ghost use Rattle.package.specs.Ways.{axis_number};
ghost use Rattle.rules.specs.Stores.{offset_range};
ghost use Rattle.rules.specs.Zero.{growth, within_twice_tsa, axis_of};

use growths::growth_of;
use package::arguments::{Probing, ZeroMeasurement};
use package::found::Kind;
use package::limits::OFFSET_LIMIT;
use package::records::Offset;
use package::ways::Axis;
use signed::{in_range, magnitude};
use sizes::MeasuredSizes;

// Whether the growth of axis n keeps to TSA, which is doubled for h; by the number as `growth_of`. No call of a user.
#[inline(always)]
pub fn growth_ok(k: Kind, a: ZeroMeasurement<i64>, s: MeasuredSizes, n: i64) -> bool
    requires { nat_abs a.tsa ≤ 1000000 }
    ensures { result ≡ within_twice_tsa a (growth k a.probing s.sizes n) }
{
    magnitude(growth_of(k, a.probing, s, n)) <= 2 * a.tsa
}

// The number of an offset on an axis.
#[inline(always)]
pub fn stored(o: Offset, axis: Axis) -> i32
    ensures { result ≡ axis_of o (axis_number axis) }
{
    match axis {
        Axis::First => o.axes[0],
        Axis::Second => o.axes[1],
        Axis::Third => o.axes[2],
    }
}

// A number of an offset that grew.
fn grown(v: i32, by: i64) -> i64
    requires { nat_abs by ≤ 100000000 }
    ensures { result ≡ v +ℤ by }
{
    i64::from(v) + by
}

// The number of an axis; a function, so that its clause is said once.
fn number_of(axis: Axis) -> i64
    ensures { result ≡ axis_number axis }
{
    axis as i64
}

// The number v of an offset on an axis, after its growth.
#[inline(always)]
pub fn axis_left(v: i32, k: Kind, a: Probing, s: MeasuredSizes, axis: Axis) -> i64
    ensures { result ≡ v +ℤ growth k a s.sizes (axis_number axis) }
{
    grown(v, growth_of(k, a, s, number_of(axis)))
}

// Whether an axis stays in range.
#[inline(always)]
pub fn left_ok(o: Offset, k: Kind, a: Probing, s: MeasuredSizes, axis: Axis) -> bool
    ensures { result ≡ offset_range (axis_of o (axis_number axis) +ℤ growth k a s.sizes (axis_number axis)) }
{
    let left = axis_left(stored(o, axis), k, a, s, axis);
    in_range(left, -OFFSET_LIMIT, OFFSET_LIMIT)
}
