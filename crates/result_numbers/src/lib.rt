// The 42 numbers of a measurement that is done. Document 01, 'Result array'.
#![tactic(auto)]

ghost use Rattle.std.specs.Prelude.{◌≡◌};
ghost use Rattle.rules.specs.Results.{tool_filled, zero_filled};

use evaluation::FoundTool;
use result_sizes::{narrow, size_numbers};
use results::Numbers;
use sizes::MeasuredSizes;
use tool_refusals::PassedTool;
use zero_refusals::PassedZero;

// A measurement with tool offset that is done: what it was given, and what it found.
#[derive(Clone, Copy)]
pub struct DoneTool {
    pub passed: PassedTool,
    pub found: FoundTool,
}

// A measurement with zero offset that is done: what it was given, and its sizes.
#[derive(Clone, Copy)]
pub struct DoneZero {
    pub passed: PassedZero,
    pub measured: MeasuredSizes,
}

impl Numbers for DoneTool {
    ghost filled = { λ d. tool_filled d.passed.given d.found.found };

    fn numbers(self) -> [i32; 42] {
        let a = self.passed.given;
        let f = self.found.found;
        let sizes = f.sizes;
        let mut n = size_numbers(self.passed.probed.kind, a.probing, sizes, f.ev);
        n[8] = narrow(sizes.held.setpoint + a.limits.tul);
        n[12] = narrow(sizes.held.setpoint + a.limits.tll);
        n[20] = narrow(f.decision.correction);
        n[27] = narrow(a.limits.tzl);
        n[28] = narrow(a.limits.tsa);
        n[29] = narrow(a.limits.tdif);
        n[30] = narrow(f.ev);
        n[31] = narrow(f.decision.mean);
        n[32] = narrow(a.tool);
        n[36] = narrow(a.k);
        n[38] = narrow(a.mv);
        n[39] = narrow(a.ev);
        n[40] = narrow(a.tool);
        n
    }
}

impl Numbers for DoneZero {
    ghost filled = { λ d. zero_filled d.passed.given d.measured.sizes };

    fn numbers(self) -> [i32; 42] {
        let a = self.passed.given;
        let mut n = size_numbers(self.passed.probed.kind, a.probing, self.measured.sizes, 0);
        n[28] = narrow(a.tsa);
        n[32] = narrow(a.offset);
        n
    }
}
