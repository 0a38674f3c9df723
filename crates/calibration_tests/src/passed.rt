// A calibration that may be made, by what it is given alone.
ghost use Rattle.std.specs.Prelude.{◌≡◌};
ghost use Rattle.package.specs.Ways as ways;
ghost use Rattle.rules.specs.Refusals.{first};
ghost use Rattle.rules.specs.Calibration.{calibration_arguments};

use package::arguments::Calibration;
use package::ways::Way;

// What it is given, with the position that its raw gives, and its way.
#[derive(Clone, Copy)]
pub struct PassedCalibration {
    pub given: Calibration<i64>,
    pub way: Way,
    ghost passed: { first (calibration_arguments given) ≡ 0 },
    ghost axis: { ways.axis_number way.axis ≡ given.axis },
    ghost direction: { ways.direction_number way.direction ≡ given.direction },
}
