// The calibration of one direction of a probe. Document 01, 'Calibration'.
#![tactic(auto)]

ghost use Rattle.std.specs.Prelude.{◌≡◌, ◌≤◌, ◌<◌, ◌%◌, IfOk};
ghost use Rattle.rules.specs.Probes.{mark};
ghost use Rattle.rules.specs.Calibration.{new_trigger, calibrated_with};
ghost use Rattle.calibration.specs.Left.{left_by};

use calibration_tests::passed::PassedCalibration;
use package::limits::TRIGGER_LIMIT;
use package::refusals::Refusal;
use probes::{place_on, read_trigger, sign_in};
use signed::{in_range, magnitude};

// What a calibration leaves of its direction's trigger and its probe's status.
#[derive(Clone, Copy)]
pub struct Calibrated {
    pub trigger: i32,
    pub status: u8,
}

// The six low bits of a status with the bit of a place 1..6 set.
fn mark_place(status: u8, place: usize) -> u8
    requires { (1 ≤ place) × (place ≤ 6) }
    ensures { result ≡ mark (status % 64) place }
{
    let low = status % 64;
    low | (1 << (place - 1))
}

// The new trigger t.
fn new_trigger(p: PassedCalibration) -> i64
    ensures { result ≡ new_trigger p.given }
{
    sign_in(p.way.direction) * (p.given.setpoint - p.given.raw)
}

// Calibrates the direction of a trigger, of a probe with a status.
#[inline(always)]
pub fn calibrate_direction(
    trigger: i32,
    status: u8,
    p: PassedCalibration,
) -> Result<Calibrated, Refusal>
    ensures left { left_by trigger status result ≡ calibrated_with trigger status p.given }
    ensures six_bits { IfOk result (λ c. c.status < 64) }
{
    let t = new_trigger(p);
    let d = magnitude(t - read_trigger(trigger));
    if p.given.tsa < d {
        return Err(Refusal::BeyondTsa);
    }
    if !in_range(t, -TRIGGER_LIMIT, TRIGGER_LIMIT) {
        return Err(Refusal::LeavesRange);
    }
    let status = mark_place(status, place_on(p.way));
    let trigger = if p.given.tzl < d { t as i32 } else { trigger };
    Ok(Calibrated { trigger, status })
}
