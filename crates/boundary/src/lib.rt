// The calls of the package: each hands on to the call in place, on the area that the caller lends. They take numbers and places as C gives them, since `boundary_c` exports each.
#![tactic(auto)]

ghost use Rattle.std.specs.Prelude.{◌≡◌};
ghost use Rattle.rules.specs.Calibration.{calibration, reported};
ghost use Rattle.rules.specs.Calls.{set_empirical, set_wear, set_offset, calibrate, calibrate_reading, load};
ghost use Rattle.area.specs.Called.{unmeasured, called, fresh_called};
ghost use Rattle.status_reading.specs.StatusRead.{status_called};
ghost use Rattle.memory.specs.Saved.{saved_as, save_called};
ghost use Rattle.measuring.specs.Reply.{reply, tool_exported, zero_exported};
ghost use Rattle.lent_measuring.specs.LentMeasured.{tool_readings_exported, zero_readings_exported};
ghost use Rattle.jobs.specs.Jobs.{job_left, job_called};

use calibrating::calibrate;
use jobs::{Ran, run_job};
use lent_measuring::{lent_tool, lent_tool_readings, lent_zero, lent_zero_readings, measure};
use measuring::Decided;
use package::arguments::{Calibration, Reading, Report};
use package::records::Status;
use package::refusals::refusal_in;

// Writes the fresh package, every record 0.
pub fn mezhtolik_fresh(area: &mut [i32]) -> u32
    ensures { unmeasured result area.new ≡ fresh_called area.old }
{
    refusal_in(fresh_area::fresh(area))
}

// Replaces one empirical value.
pub fn mezhtolik_set_empirical(area: &mut [i32], ev: i64, value: i64) -> u32
    ensures { unmeasured result area.new ≡ called area.old (set_empirical ev value) }
{
    refusal_in(empirical_setting::set_empirical(area, ev, value))
}

// Replaces one tool's two wears.
pub fn mezhtolik_set_wear(area: &mut [i32], tool: i64, radius: i64, length: i64) -> u32
    ensures { unmeasured result area.new ≡ called area.old (set_wear tool radius length) }
{
    refusal_in(wear_setting::set_wear(area, tool, radius, length))
}

// Replaces one zero offset on its three axes.
pub fn mezhtolik_set_offset(area: &mut [i32], offset: i64, v1: i64, v2: i64, v3: i64) -> u32
    ensures { unmeasured result area.new ≡ called area.old (set_offset offset v1 v2 v3) }
{
    refusal_in(zero_setting::set_offset(area, offset, v1, v2, v3))
}

// Calibrates one direction of a probe. Axis and direction are numbers, here and in the next call, since C gives numbers.
pub fn mezhtolik_calibrate(
    area: &mut [i32],
    probe: i64,
    axis: i64,
    direction: i64,
    setpoint: i64,
    raw: i64,
    tzl: i64,
    tsa: i64,
) -> u32
    ensures { unmeasured result area.new ≡ called area.old (calibrate (calibration probe axis direction setpoint raw tzl tsa)) }
{
    let a = Calibration {
        probe,
        axis,
        direction,
        setpoint,
        raw,
        tzl,
        tsa,
    };
    refusal_in(calibrate(area, a))
}

// Calibrates one direction of a probe by a report.
pub fn mezhtolik_calibrate_report(
    area: &mut [i32],
    probe: i64,
    axis: i64,
    direction: i64,
    setpoint: i64,
    x: f32,
    y: f32,
    z: f32,
    tzl: i64,
    tsa: i64,
) -> u32
    ensures { unmeasured result area.new
        ≡ called area.old (calibrate_reading (reported probe axis direction setpoint (record { x = x; y = y; z = z }) tzl tsa)) }
{
    let report = Report { x, y, z };
    let t = Calibration {
        probe,
        axis,
        direction,
        setpoint,
        raw: Reading::Reported(report),
        tzl,
        tsa,
    };
    refusal_in(calibrate(area, t))
}

// The bits of a probe's status and the number of directions calibrated.
pub fn mezhtolik_probe_status(area: &[i32], probe: i64) -> Status
    ensures { result ≡ status_called area.now probe }
{
    status_reading::probe_status(area, probe).into()
}

// Measures with tool offset by 21 numbers and writes the 42 numbers that begin at place. C lends a buffer and names a place in it, in all four calls.
pub fn mezhtolik_measure_tool(
    area: &mut [i32],
    numbers: &[i64],
    results: &mut [i32],
    place: usize,
) -> Decided
    ensures { reply result area.new results.new ≡ tool_exported area.old numbers.now results.old place }
{
    measure(area, lent_tool(numbers), results, place).into()
}

// Measures with zero offset by 13 numbers and writes the 42 numbers that begin at place.
pub fn mezhtolik_measure_zero(
    area: &mut [i32],
    numbers: &[i64],
    results: &mut [i32],
    place: usize,
) -> Decided
    ensures { reply result area.new results.new ≡ zero_exported area.old numbers.now results.old place }
{
    measure(area, lent_zero(numbers), results, place).into()
}

// Measures with tool offset by 21 numbers and 12 floats, the raws that `reported` marks by their reports, and writes the 42 numbers that begin at place.
pub fn mezhtolik_measure_tool_readings(
    area: &mut [i32],
    numbers: &[i64],
    floats: &[f32],
    reported: u32,
    results: &mut [i32],
    place: usize,
) -> Decided
    ensures { reply result area.new results.new
        ≡ tool_readings_exported area.old numbers.now floats.now reported results.old place }
{
    let m = lent_tool_readings(numbers, floats, reported);
    measure(area, m, results, place).into()
}

// Measures with zero offset by 13 numbers and 12 floats, the raws that `reported` marks by their reports, and writes the 42 numbers that begin at place.
#[tactic(auto, using(measuring::specs::ReplyLaws::exported_lent))]
pub fn mezhtolik_measure_zero_readings(
    area: &mut [i32],
    numbers: &[i64],
    floats: &[f32],
    reported: u32,
    results: &mut [i32],
    place: usize,
) -> Decided
    ensures { reply result area.new results.new
        ≡ zero_readings_exported area.old numbers.now floats.now reported results.old place }
{
    let m = lent_zero_readings(numbers, floats, reported);
    measure(area, m, results, place).into()
}

// Replaces all empirical and mean values by those of a block of 80 bytes.
pub fn mezhtolik_load(area: &mut [i32], bytes: &[u8]) -> u32
    ensures { unmeasured result area.new ≡ called area.old (load bytes.now) }
{
    refusal_in(memory::load(area, bytes))
}

// Writes the block of all empirical and mean values to the first 80 bytes of the buffer.
pub fn mezhtolik_save(area: &[i32], buffer: &mut [u8]) -> u32
    ensures { saved_as result buffer.new ≡ save_called area.now buffer.old }
{
    refusal_in(memory::save(area, buffer))
}

// Runs a job and writes the answers of its lines to the front of the output.
pub fn mezhtolik_run_job(area: &mut [i32], job: &[u8], output: &mut [u8]) -> Ran
    ensures { job_left result.refusal result.length area.new output.new
        ≡ job_called area.old job.now output.old }
{
    run_job(area, job, output).into()
}
