// An empirical value set, in place on the area that the caller lends. Document 01, 'Units and stores'.
#![tactic(auto)]

ghost use Rattle.std.specs.Prelude.{◌≡◌, IfOk};
ghost use Rattle.package.specs.Refusals.{refusal_in};
ghost use Rattle.rules.specs.Refusals.{first};
ghost use Rattle.rules.specs.Settings.{empirical_rules};
ghost use Rattle.rules.specs.Calls.{set_empirical};
ghost use Rattle.area.specs.Called.{unmeasured, called};

use area::{AREA, EMPIRICALS};
use layout::put_record;
use package::limits::{VALUE_COUNT, VALUE_GREATEST, VALUE_LEAST};
use package::refusals::Refusal;
use signed::in_range;

// An empirical value that may be set, as the area holds it. The three settings are functions of one outline, since what each tests and writes is its own; the casts
// in them stand behind a test, where try_from would bring an Err that no value can meet.
fn passed_empirical(ev: i64, value: i64) -> Result<i32, Refusal>
    ensures number { refusal_in result ≡ first (empirical_rules ev value) }
    ensures kept { IfOk result (λ v. v ≡ value) }
{
    if !in_range(ev, 1, VALUE_COUNT) {
        return Err(Refusal::NoSuchNumber);
    }
    if !in_range(value, VALUE_LEAST, VALUE_GREATEST) {
        return Err(Refusal::OutsideRange);
    }
    Ok(value as i32)
}

// Replaces one empirical value.
#[tactic(auto, using(area::specs::CalledLaws::call_wrong))]
pub fn set_empirical(area: &mut [i32], ev: i64, value: i64) -> Result<(), Refusal>
    ensures { unmeasured (refusal_in result) area.new ≡ called area.old (set_empirical ev value) }
{
    let Some(whole) = area.as_mut_array::<AREA>() else {
        return Err(Refusal::WrongArea);
    };
    let stored = passed_empirical(ev, value)?;
    put_record(whole, EMPIRICALS, ev, &[stored]);
    Ok(())
}
