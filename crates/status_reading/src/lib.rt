// A status read, in place on the area that the caller lends. Document 01, 'Calibration'.
#![tactic(auto)]

ghost use Rattle.std.specs.Prelude.{◌≡◌};
ghost use Rattle.package.specs.StatusAnswers.{status_by};
ghost use Rattle.status_reading.specs.StatusRead.{status_called};

use area::{AREA, PROBES, status_from};
use layout::record_in;
use package::limits::PROBE_COUNT;
use package::records::Directions;
use package::refusals::Refusal;
use probes::status_answer;
use signed::in_range;

// The bits of a probe's status and the number of directions calibrated.
#[tactic(auto, using(crate::specs::StatusLaws::status_wrong))]
pub fn probe_status(area: &[i32], probe: i64) -> Result<Directions, Refusal>
    ensures { status_by result ≡ status_called area.now probe }
{
    let Some(whole) = area.as_array::<AREA>() else {
        return Err(Refusal::WrongArea);
    };
    if !in_range(probe, 1, PROBE_COUNT) {
        return Err(Refusal::NoSuchNumber);
    }
    Ok(status_answer(status_from(record_in(whole, PROBES, probe)[6])))
}
