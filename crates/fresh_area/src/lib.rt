// The fresh package, in place on the area that the caller lends. Document 01, 'Units and stores'.
#![tactic(auto)]

ghost use Rattle.std.specs.Prelude.{◌≡◌};
ghost use Rattle.package.specs.Refusals.{refusal_in};
ghost use Rattle.area.specs.Called.{unmeasured, fresh_called};

use area::AREA;
use package::refusals::Refusal;

// Writes the fresh package, every record 0.
#[tactic(auto, using(area::specs::CalledLaws::fresh_wrong, area::specs::CalledLaws::fresh_done))]
pub fn fresh(area: &mut [i32]) -> Result<(), Refusal>
    ensures { unmeasured (refusal_in result) area.new ≡ fresh_called area.old }
{
    let Some(whole) = area.as_mut_array::<AREA>() else {
        return Err(Refusal::WrongArea);
    };
    *whole = [0; AREA];
    Ok(())
}
