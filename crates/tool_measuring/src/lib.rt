// Measurements with tool offset, in place on a lent area. Document 01, 'Tolerance, mean, correction'.
#![tactic(auto)]

ghost use Rattle.std.specs.Prelude.{◌≡◌, true, [], ◌∷◌};
ghost use Rattle.package.specs.Given.{ToolReadings, tool_by};
ghost use Rattle.rules.specs.Stores.{value_range, means, tools};
ghost use Rattle.rules.specs.Changes.{write};
ghost use Rattle.rules.specs.Passed.{ToolNumbers};
ghost use Rattle.rules.specs.Refusals.{first};
ghost use Rattle.rules.specs.Tool.{tool_at};
ghost use Rattle.area.specs.Renewed.{renewed_all};
ghost use Rattle.area.specs.Called.{answered_by};
ghost use Rattle.measuring.specs.Reply.{tool, measured_as, measured_on, results_left};
ghost use Rattle.measuring.specs.ReplyLaws.{arguments_of};

use area::{AREA, MEANS, TOOLS};
use floats::Raw;
use found_tests::tool_tests;
use layout::put_record;
use package::arguments::ToolMeasurement;
use package::found::Evaluation;
use package::records::Wear;
use package::refusals::Refusal;
use reading::tool_records;
use record_refusals::allowed;
use result_numbers::DoneTool;
use results::put_numbers;
use tool_offset::find;
use tool_refusals::{PassedTool, passed_tool};
use wears::wears_left;

// Writes the mean value and the wears that a measurement leaves.
fn put_tool(area: &mut [i32; AREA], a: ToolMeasurement<i64>, mean: i64, w: Wear)
    requires tool_numbers { ToolNumbers a }
    requires mean_value { value_range mean ≡ true }
    ensures { area.new ≡ renewed_all area.old (write means a.mv mean ∷ write tools a.tool w ∷ []) }
{
    put_record(area, MEANS, a.mv, &[mean as i32]);
    put_record(area, TOOLS, a.tool, &[w.radius, w.length]);
}

// Measures by arguments that passed their tests, whatever raws they came from; the 42 numbers of a measurement that is done are written to the results from
// the place on, where they have room for them.
#[inline(always)]
fn measure_passed(
    area: &mut [i32; AREA],
    p: PassedTool,
    results: &mut [i32],
    place: usize,
) -> Result<Evaluation, Refusal>
    ensures { (t : ToolReadings) → p.given ≡ tool_at t → first (arguments_of (tool t)) ≡ 0
        → measured_as (answered_by result area.new) (results_left result results.new place) ≡ measured_on area.old (tool t) results.old place }
{
    let a = p.given;
    let r = tool_records(area, a);
    let f = find(r, p);
    allowed(tool_tests(p.probed.kind, a, f))?;
    put_tool(
        area,
        a,
        f.found.decision.mean,
        wears_left(r.wear, p.probed.kind, a.probing, f.found.wear),
    );
    let done = DoneTool {
        passed: p,
        found: f,
    };
    put_numbers(done, results, place);
    Ok(f.evaluated(a))
}

// Measures; the 42 numbers of a measurement that is done are written to the results from the place on, where they have room for them.
#[inline(always)]
pub fn measure_tool<T: Raw>(
    area: &mut [i32; AREA],
    a: ToolMeasurement<T>,
    results: &mut [i32],
    place: usize,
) -> Result<Evaluation, Refusal>
    ensures { measured_as (answered_by result area.new) (results_left result results.new place)
        ≡ measured_on area.old (tool (tool_by T.reading a)) results.old place }
{
    let p = passed_tool(a)?;
    measure_passed(area, p, results, place)
}
