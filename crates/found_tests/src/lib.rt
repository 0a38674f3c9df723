// What of the records allows a measurement with tool offset, by what it found. Document 01, 'Tolerance, mean, correction'.
#![tactic(auto)]

ghost use Rattle.std.specs.Prelude.{◌≡◌};
ghost use Rattle.rules.specs.Tool.{tool_kind_of, found_tests};

use evaluation::FoundTool;
use package::arguments::ToolMeasurement;
use package::found::{Kind, Tests};
use package::limits::WEAR_LIMIT;
use record_tests::widths_ok;
use signed::{in_range, magnitude};

// What of the records allows the measurement. No call of a user.
pub fn tool_tests(k: Kind, a: ToolMeasurement<i64>, f: FoundTool) -> Tests
    requires k_value { k ≡ tool_kind_of a }
    ensures { result ≡ found_tests a f.found }
{
    let limits = a.limits;
    let found = f.found;
    let far = magnitude(found.deviation);
    Tests {
        calibrated: found.calibrated,
        pairs: widths_ok(k, a.probing, found.sizes),
        tsa: far <= limits.tsa,
        tdif: far <= limits.tdif,
        range: in_range(found.wear, -WEAR_LIMIT, WEAR_LIMIT),
    }
}
