// The order of the refusals that the records give. Document 01, 'Alarm numbers'.
#![tactic(auto)]

ghost use Rattle.std.specs.Prelude.{◌≡◌};
ghost use Rattle.package.specs.Refusals.{refusal_in};
ghost use Rattle.rules.specs.Refusals.{first};
ghost use Rattle.rules.specs.Measuring.{record_rules};

use package::found::Tests;
use package::refusals::Refusal;

// Whether the records allow a measurement, or the first refusal that they give.
pub fn allowed(t: Tests) -> Result<(), Refusal>
    ensures { refusal_in result ≡ first (record_rules t) }
{
    if !t.calibrated {
        return Err(Refusal::Uncalibrated);
    }
    if !t.pairs {
        return Err(Refusal::NoWidth);
    }
    if !t.tsa {
        return Err(Refusal::BeyondTsa);
    }
    if !t.tdif {
        return Err(Refusal::BeyondTdif);
    }
    if !t.range {
        return Err(Refusal::LeavesRange);
    }
    Ok(())
}
