// A tool's wears set, in place on the area that the caller lends. Document 01, 'Units and stores'.
#![tactic(auto)]

ghost use Rattle.std.specs.Prelude.{◌≡◌, [], ◌∷◌, IfOk};
ghost use Rattle.package.specs.Refusals.{refusal_in};
ghost use Rattle.rules.specs.Refusals.{first};
ghost use Rattle.rules.specs.Settings.{wear_rules};
ghost use Rattle.rules.specs.Calls.{set_wear};
ghost use Rattle.area.specs.Called.{unmeasured, called};

use area::{AREA, TOOLS};
use layout::put_record;
use package::limits::{TOOL_COUNT, WEAR_LIMIT};
use package::refusals::Refusal;
use signed::in_range;

// Wears that may be set, as the area holds them.
fn passed_wears(tool: i64, radius: i64, length: i64) -> Result<[i32; 2], Refusal>
    ensures number { refusal_in result ≡ first (wear_rules tool radius length) }
    ensures kept { IfOk result (λ w. w ≡ radius ∷ length ∷ []) }
{
    if !in_range(tool, 1, TOOL_COUNT) {
        return Err(Refusal::NoSuchNumber);
    }
    if !(in_range(radius, -WEAR_LIMIT, WEAR_LIMIT) & in_range(length, -WEAR_LIMIT, WEAR_LIMIT)) {
        return Err(Refusal::OutsideRange);
    }
    Ok([radius as i32, length as i32])
}

// Replaces one tool's two wears.
#[tactic(auto, using(area::specs::CalledLaws::call_wrong))]
pub fn set_wear(area: &mut [i32], tool: i64, radius: i64, length: i64) -> Result<(), Refusal>
    ensures { unmeasured (refusal_in result) area.new ≡ called area.old (set_wear tool radius length) }
{
    let Some(whole) = area.as_mut_array::<AREA>() else {
        return Err(Refusal::WrongArea);
    };
    let wears = passed_wears(tool, radius, length)?;
    put_record(whole, TOOLS, tool, &wears);
    Ok(())
}
