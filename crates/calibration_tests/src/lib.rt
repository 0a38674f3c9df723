// The tests of what a calibration is given. Document 01, 'Calibration'.
#![tactic(auto)]

ghost use Rattle.std.specs.Prelude.{◌≡◌, IfOk};
ghost use Rattle.package.specs.Given.{calibration_by};
ghost use Rattle.package.specs.Refusals.{refusal_in};
ghost use Rattle.rules.specs.Refusals.{first};
ghost use Rattle.rules.specs.Calibration.{calibration_arguments, calibration_arguments_with, calibration_at, good_calibration, calibration_positions, calibration_limits};

pub mod passed;

use floats::Raw;
use package::arguments::Calibration;
use package::limits::{POSITION_LIMIT, PROBE_COUNT, TOLERANCE_LIMIT};
use package::refusals::Refusal;
use package::ways::Way;
use passed::PassedCalibration;
use signed::in_range;

fn positions_ok(a: Calibration<i64>) -> bool
    ensures { result ≡ calibration_positions a }
{
    in_range(a.setpoint, -POSITION_LIMIT, POSITION_LIMIT)
        & in_range(a.raw, -POSITION_LIMIT, POSITION_LIMIT)
}

fn limits_ok(a: Calibration<i64>) -> bool
    ensures { result ≡ calibration_limits a }
{
    (0 <= a.tzl) & ((a.tzl <= a.tsa) & (a.tsa <= TOLERANCE_LIMIT))
}

// The first refusal that what it is given gives, or what passed.
#[tactic(auto, using(rules::specs::WayLaws::way_tested), unfolding(rules::specs::Calibration::calibration_arguments_with))]
#[inline(always)]
pub fn passed_calibration<T: Raw>(a: Calibration<T>) -> Result<PassedCalibration, Refusal>
    ensures refusal { let t = calibration_by T.reading a in refusal_in result ≡ first (calibration_arguments_with (good_calibration t) (calibration_at t)) }
    ensures given { IfOk result (λ p. p.given ≡ calibration_at (calibration_by T.reading a)) }
{
    let way = Way::named(a.axis, a.direction)?;
    if !in_range(a.probe, 1, PROBE_COUNT) {
        return Err(Refusal::NoSuchNumber);
    }
    let raw = a.raw.position(true, a.axis).ok_or(Refusal::BadFloat)?;
    let given = a.with_raw(raw);
    if !(positions_ok(given) & limits_ok(given)) {
        return Err(Refusal::OutsideRange);
    }
    Ok(PassedCalibration { given, way })
}
