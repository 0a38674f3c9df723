// A measurement of either way that is lent, on the area that the caller lends.
#![tactic(auto)]

ghost use Rattle.std.specs.Prelude.{◌≡◌, option_map};
ghost use Rattle.measuring.specs.Reply as measuring;
ghost use Rattle.measuring.specs.Reply.{tool, zero, reply, decided_in, exported_of, measured_as, measured_on, results_left};
ghost use Rattle.package.specs.Given.{tool_by, zero_by};
ghost use Rattle.area.specs.Called.{answered_by};
ghost use Rattle.lent_measuring.specs.LentMeasured.{tool_lent, zero_lent, tool_readings_lent, zero_readings_lent};

use area::AREA;
use arguments::{tool_of, zero_of};
use floats::Raw;
use lent_reports::lent_readings;
use measuring::{answered, lent};
use package::arguments::{Reading, ToolMeasurement, ZeroMeasurement};
use package::found::Evaluation;
use package::refusals::Refusal;
use tool_measuring::measure_tool;
use zero_measuring::measure_zero;

// How many numbers a measurement is lent.
pub const TOOL_NUMBERS: usize = 21;

pub const ZERO_NUMBERS: usize = 13;

// A measurement of either way. Its results and the place in them stand side by side, as C lends them.
pub trait Measurement: Copy {
    ghost said: { Self → measuring.Measurement };

    // Measures; the 42 numbers of a measurement that is done are written to the results from the place on, where they have room for them.
    fn measure_on(
        self,
        area: &mut [i32; AREA],
        results: &mut [i32],
        place: usize,
    ) -> Result<Evaluation, Refusal>
        ensures { measured_as (answered_by result area.new) (results_left result results.new place)
            ≡ measured_on area.old (said self) results.old place };
}

impl<T: Raw> Measurement for ToolMeasurement<T> {
    ghost said = { λ t. tool (tool_by T.reading t) };

    #[inline(always)]
    fn measure_on(
        self,
        area: &mut [i32; AREA],
        results: &mut [i32],
        place: usize,
    ) -> Result<Evaluation, Refusal> {
        measure_tool(area, self, results, place)
    }
}

impl<T: Raw> Measurement for ZeroMeasurement<T> {
    ghost said = { λ t. zero (zero_by T.reading t) };

    #[inline(always)]
    fn measure_on(
        self,
        area: &mut [i32; AREA],
        results: &mut [i32],
        place: usize,
    ) -> Result<Evaluation, Refusal> {
        measure_zero(area, self, results, place)
    }
}

// Measures; the 42 numbers are written to the results from the place on, where they have room for them.
pub fn evaluate<M: Measurement>(
    area: &mut [i32],
    m: M,
    results: &mut [i32],
    place: usize,
) -> Result<Evaluation, Refusal>
    ensures { measured_as (answered_by result area.new) results.new
        ≡ measured_on area.old (M.said m) results.old place }
{
    let Some(whole) = area.as_mut_array::<AREA>() else {
        return Err(Refusal::WrongArea);
    };
    answered(m.measure_on(whole, results, place), results, place)
}

// Measures where as many arguments were lent as a measurement has, and the 42 numbers have room from the place on. What is lent is unwrapped behind the test, since
// the refusals of the area and of the room stand on either side of it.
pub fn measure<M: Measurement>(
    area: &mut [i32],
    m: Option<M>,
    results: &mut [i32],
    place: usize,
) -> Result<Evaluation, Refusal>
    ensures { reply (decided_in result) area.new results.new
        ≡ exported_of area.old (option_map M.said m) results.old place }
{
    lent(area.len(), m.is_some(), results.len(), place)?;
    evaluate(area, m.unwrap(), results, place)
}

// What a measurement with tool offset is lent, where it is 21 numbers. Four functions of two lines: one for all would need a trait with a type for the same with readings.
pub fn lent_tool(numbers: &[i64]) -> Option<ToolMeasurement<i64>>
    ensures { result ≡ tool_lent numbers.now }
{
    Some(tool_of(numbers.as_array::<TOOL_NUMBERS>()?))
}

// What a measurement with zero offset is lent, where it is 13 numbers.
pub fn lent_zero(numbers: &[i64]) -> Option<ZeroMeasurement<i64>>
    ensures { result ≡ zero_lent numbers.now }
{
    Some(zero_of(numbers.as_array::<ZERO_NUMBERS>()?))
}

// The same with 12 floats, the raws that `reported` marks by their reports.
pub fn lent_tool_readings(
    numbers: &[i64],
    floats: &[f32],
    reported: u32,
) -> Option<ToolMeasurement<Reading>>
    ensures { result ≡ tool_readings_lent numbers.now floats.now reported }
{
    let a = lent_tool(numbers)?;
    Some(a.with_raws(lent_readings(a.raws, floats.as_array()?, reported)))
}

pub fn lent_zero_readings(
    numbers: &[i64],
    floats: &[f32],
    reported: u32,
) -> Option<ZeroMeasurement<Reading>>
    ensures { result ≡ zero_readings_lent numbers.now floats.now reported }
{
    let a = lent_zero(numbers)?;
    Some(a.with_raws(lent_readings(a.raws, floats.as_array()?, reported)))
}
