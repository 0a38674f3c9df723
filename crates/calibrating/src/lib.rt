// A calibration, in place on the area that the caller lends. Document 01, 'Calibration'.
#![tactic(auto)]

ghost use Rattle.std.specs.Prelude.{◌≡◌, true, ◌<◌, set};
ghost use Rattle.package.specs.Given.{calibration_by};
ghost use Rattle.package.specs.Refusals.{refusal_in};
ghost use Rattle.rules.specs.Stores.{probe_number, probes};
ghost use Rattle.rules.specs.Calls.{calibrate, calibrate_reading};
ghost use Rattle.layout.specs.Layout.{record_of, record_put};
ghost use Rattle.area.specs.Table.{section_of};
ghost use Rattle.area.specs.Called.{unmeasured, called};

use area::{AREA, PROBES, status_from};
use calibration::calibrate_direction;
use calibration_tests::passed::PassedCalibration;
use calibration_tests::passed_calibration;
use floats::Raw;
use layout::record_in;
use package::arguments::Calibration;
use package::refusals::Refusal;
use probes::place_on;
use signed::index;

// Writes one number of a probe's record, and not the record whole: the numbers that stay would be copied with it, and the next calibration would wait for them.
fn put_number(area: &mut [i32; AREA], probe: i64, j: usize, v: i32)
    requires probe_value { probe_number probe ≡ true }
    requires j_lt_width { j < 7 }
    ensures { let s = section_of probes in area.new ≡ record_put s area.old probe (set (record_of s area.old probe) j v) }
{
    area[PROBES.at + PROBES.width * index(probe) + j] = v;
}

// Calibrates the direction, where nothing that it is given refuses it. The record's numbers are reached by their places, as the area has them.
#[tactic(auto, using(crate::specs::CalibrateLaws::probe_in))]
fn calibrate_passed(area: &mut [i32; AREA], p: PassedCalibration) -> Result<(), Refusal>
    ensures { unmeasured (refusal_in result) area.new ≡ called area.old (calibrate p.given) }
{
    let probe = p.given.probe;
    let at = place_on(p.way) - 1;
    let numbers = record_in(&area[..], PROBES, probe).as_array::<7>().unwrap();
    let c = calibrate_direction(numbers[at], status_from(numbers[6]), p)?;
    put_number(area, probe, at, c.trigger);
    put_number(area, probe, 6, i32::from(c.status));
    Ok(())
}

// Calibrates one direction of a probe, by a whole position or a reading.
#[inline(always)]
pub fn calibrate<T: Raw>(area: &mut [i32], a: Calibration<T>) -> Result<(), Refusal>
    ensures { unmeasured (refusal_in result) area.new ≡ called area.old (calibrate_reading (calibration_by T.reading a)) }
{
    let Some(whole) = area.as_mut_array::<AREA>() else {
        return Err(Refusal::WrongArea);
    };
    calibrate_passed(whole, passed_calibration(a)?)
}
