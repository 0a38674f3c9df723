// The refusals of a measurement with tool offset that its arguments give. Document 01, 'Tolerance, mean, correction' and 'Alarm numbers'.
#![tactic(auto)]

ghost use Rattle.std.specs.Prelude.{◌≡◌, ◌&&◌, IfOk};
ghost use Rattle.package.specs.Given.{tool_by};
ghost use Rattle.package.specs.Refusals.{refusal_in};
ghost use Rattle.rules.specs.Refusals.{first};
ghost use Rattle.rules.specs.Stores.{tool_number};
ghost use Rattle.rules.specs.Passed.{ToolArgumentsPassed};
ghost use Rattle.rules.specs.Tool.{tool_kind_of, named_or_none, tool_arguments_with, tool_at, good_tool};

use floats::Raw;
use kind_tests::Probed;
use kinds::tool_kind;
use package::arguments::ToolMeasurement;
use package::limits::{TOOL_COUNT, VALUE_COUNT, WEIGHT_LIMIT};
use package::refusals::Refusal;
use signed::in_range;
use tolerance::limits_ok;

// What a measurement with tool offset is given, tested, and what it probes. A struct beside PassedZero, since its facts are of other rules.
#[derive(Clone, Copy)]
pub struct PassedTool {
    pub probed: Probed,
    pub given: ToolMeasurement<i64>,
    pub ghost named: { probed.kind ≡ tool_kind_of given },
    pub ghost probing: { (probed.probing ≡ given.probing) × (probed.raws ≡ given.raws) },
    pub ghost passed: { ToolArgumentsPassed given },
}

// Whether the tool and the values that a measurement names are numbers of their stores; number 0 names no value.
fn stores_named(tool: i64, ev: i64, mv: i64) -> bool
    ensures { result ≡ tool_number tool && named_or_none ev && named_or_none mv }
{
    in_range(tool, 1, TOOL_COUNT) & in_range(ev, 0, VALUE_COUNT) & in_range(mv, 0, VALUE_COUNT)
}

// The arguments of a measurement, with the positions that its raws give, or the first refusal that they give. A function beside passed_zero, since most of what each
// tests is its own.
#[tactic(auto, unfolding(rules::specs::Tool::tool_arguments_with))]
#[inline(always)]
pub fn passed_tool<T: Raw>(a: ToolMeasurement<T>) -> Result<PassedTool, Refusal>
    ensures refusal { refusal_in result ≡ first (tool_arguments_with (good_tool (tool_by T.reading a)) (tool_at (tool_by T.reading a))) }
    ensures given { IfOk result (λ p. p.given ≡ tool_at (tool_by T.reading a)) }
{
    let kind = tool_kind(a.probing.kind)?;
    if !stores_named(a.tool, a.ev, a.mv) {
        return Err(Refusal::NoSuchNumber);
    }
    let probed = Probed::tested(kind, a.probing, a.raws)?;
    if !in_range(a.k, 1, WEIGHT_LIMIT) {
        return Err(Refusal::OutsideRange);
    }
    if !limits_ok(a.limits) {
        return Err(Refusal::WrongLimits);
    }
    let given = a.with_raws(probed.raws);
    Ok(PassedTool { probed, given })
}
