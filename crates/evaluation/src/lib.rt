// What a measurement comes to. Document 01, 'Tolerance, mean, correction' and 'Zero offset kinds'.
#![tactic(auto)]

ghost use Rattle.std.specs.Prelude.{◌≡◌, ◌≤◌, nat_abs};
ghost use Rattle.rules.specs.Sizes.{difference};
ghost use Rattle.rules.specs.Results.{tool_evaluation, zero_evaluation};
ghost use Rattle.sizes.specs.SizeLaws.{SizesSmall};
ghost use Rattle.evaluation.specs.FoundSmall.{FoundSmall};

use package::arguments::ToolMeasurement;
use package::found::{Evaluation, Found, Held, Sizes, Verdict, ZERO_BRANCH};
use sizes::MeasuredSizes;
use tolerance::verdict_of;

// What a measurement with tool offset finds, none of it larger than the arguments and records of one allow.
#[derive(Clone, Copy)]
pub struct FoundTool {
    pub found: Found,
    pub ghost small: { FoundSmall found },
}

impl FoundTool {
    // What the measurement comes to.
    pub fn evaluated(self, a: ToolMeasurement<i64>) -> Evaluation
        ensures { result ≡ tool_evaluation a self.found }
    {
        let found = self.found;
        Evaluation {
            branch: found.decision.branch.into(),
            verdict: verdict_of(a.limits, found.deviation).into(),
            deviation: found.deviation as i32,
            correction: found.decision.correction as i32,
        }
    }
}

// What a measurement with zero offset comes to.
pub fn evaluated(s: MeasuredSizes) -> Evaluation
    ensures { result ≡ zero_evaluation s.sizes }
{
    Evaluation {
        branch: ZERO_BRANCH,
        verdict: Verdict::InTolerance.into(),
        deviation: difference_of(s.sizes.held, 0) as i32,
        correction: 0,
    }
}

// A size less EV and less its setpoint. No call of a user.
pub fn difference_of(h: Held, ev: i64) -> i64
    requires { (nat_abs h.size ≤ 20200000) × (nat_abs h.setpoint ≤ 10000000) × (nat_abs ev ≤ 32768) }
    ensures { (result ≡ difference h ev) × (nat_abs result ≤ 40000000) }
{
    h.size - ev - h.setpoint
}
