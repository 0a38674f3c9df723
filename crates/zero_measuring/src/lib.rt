// Measurements with zero offset, in place on a lent area. Document 01, 'Zero offset kinds'.
#![tactic(auto)]

ghost use Rattle.std.specs.Prelude.{◌≡◌, [], ◌∷◌};
ghost use Rattle.package.specs.Given.{ZeroReadings, zero_by};
ghost use Rattle.rules.specs.Stores.{offsets};
ghost use Rattle.rules.specs.Changes.{write};
ghost use Rattle.rules.specs.Passed.{ZeroNumbers};
ghost use Rattle.rules.specs.Refusals.{first};
ghost use Rattle.rules.specs.Zero.{zero_at};
ghost use Rattle.area.specs.Renewed.{renewed_all};
ghost use Rattle.area.specs.Called.{answered_by};
ghost use Rattle.measuring.specs.Reply.{zero, measured_as, measured_on, results_left};
ghost use Rattle.measuring.specs.ReplyLaws.{arguments_of};

use area::{AREA, OFFSETS};
use evaluation::evaluated;
use floats::Raw;
use layout::put_record;
use package::arguments::ZeroMeasurement;
use package::found::Evaluation;
use package::records::Offset;
use package::refusals::Refusal;
use reading::zero_records;
use record_refusals::allowed;
use result_numbers::DoneZero;
use results::put_numbers;
use zero_offset::find;
use zero_refusals::{PassedZero, passed_zero};

// Writes the zero offset that a measurement leaves.
fn put_zero(area: &mut [i32; AREA], a: ZeroMeasurement<i64>, o: Offset)
    requires { ZeroNumbers a }
    ensures { area.new ≡ renewed_all area.old (write offsets a.offset o ∷ []) }
{
    put_record(area, OFFSETS, a.offset, &o.axes);
}

// Measures by arguments that passed their tests, whatever raws they came from; the 42 numbers of a measurement that is done are written to the results from
// the place on, where they have room for them.
#[inline(always)]
fn measure_passed(
    area: &mut [i32; AREA],
    p: PassedZero,
    results: &mut [i32],
    place: usize,
) -> Result<Evaluation, Refusal>
    ensures { (t : ZeroReadings) → p.given ≡ zero_at t → first (arguments_of (zero t)) ≡ 0
        → measured_as (answered_by result area.new) (results_left result results.new place) ≡ measured_on area.old (zero t) results.old place }
{
    let a = p.given;
    let f = find(zero_records(area, a), p);
    allowed(f.tests())?;
    put_zero(area, a, f.offset_left());
    let done = DoneZero {
        passed: p,
        measured: f.measured,
    };
    put_numbers(done, results, place);
    Ok(evaluated(f.measured))
}

// Measures; the 42 numbers of a measurement that is done are written to the results from the place on, where they have room for them.
#[inline(always)]
pub fn measure_zero<T: Raw>(
    area: &mut [i32; AREA],
    a: ZeroMeasurement<T>,
    results: &mut [i32],
    place: usize,
) -> Result<Evaluation, Refusal>
    ensures { measured_as (answered_by result area.new) (results_left result results.new place)
        ≡ measured_on area.old (zero (zero_by T.reading a)) results.old place }
{
    let p = passed_zero(a)?;
    measure_passed(area, p, results, place)
}
