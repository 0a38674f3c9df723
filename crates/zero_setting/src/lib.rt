// A zero offset set, in place on the area that the caller lends. Document 01, 'Units and stores'.
#![tactic(auto)]

ghost use Rattle.std.specs.Prelude.{◌≡◌};
ghost use Rattle.package.specs.Refusals.{refusal_in};
ghost use Rattle.rules.specs.Calls.{set_offset};
ghost use Rattle.area.specs.Called.{unmeasured, called};

use area::{AREA, OFFSETS};
use layout::put_record;
use package::refusals::Refusal;
use records::passed_offset;

// Replaces one zero offset on its three axes.
#[tactic(auto, using(area::specs::CalledLaws::call_wrong))]
pub fn set_offset(area: &mut [i32], offset: i64, v1: i64, v2: i64, v3: i64) -> Result<(), Refusal>
    ensures { unmeasured (refusal_in result) area.new ≡ called area.old (set_offset offset v1 v2 v3) }
{
    let Some(whole) = area.as_mut_array::<AREA>() else {
        return Err(Refusal::WrongArea);
    };
    let axes = passed_offset(offset, v1, v2, v3)?;
    put_record(whole, OFFSETS, offset, &axes);
    Ok(())
}
