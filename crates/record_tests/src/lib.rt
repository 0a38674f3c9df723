// The tests by kind on what is read and measured, which both ways of measuring share: calibrated directions, widths.
// Document 01, 'Measured sizes' and 'Alarm numbers'.
#![tactic(auto)]

ghost use Rattle.std.specs.Prelude.{◌≡◌, true, [], ◌∷◌};
ghost use Rattle.lists.specs.Each.{every};
ghost use Rattle.rules.specs.Probes.{calibrated_in};
ghost use Rattle.rules.specs.Sizes.{numbers_ok, calibrated_ok, pairs_ok};
ghost use Rattle.kinds.specs.Touches.{touch, Touches};

use kinds::{Across, Surfaces, surfaces_of};
use package::arguments::Probing;
use package::found::{Form, Kind, Sizes};
use package::records::Probe;
use probes::calibrated_on;
use sizes::pair_on;

// Whether both directions of a pair are calibrated.
fn pair_calibrated(x: Probe, p: Across) -> bool
    ensures { result ≡ every (λ t. calibrated_in x.status t.way) (touch p.low ∷ touch p.high ∷ []) }
{
    calibrated_on(x, p.low.way) & calibrated_on(x, p.high.way)
}

// Whether every direction that a measurement needs is calibrated.
#[tactic(auto, unfolding(rules::specs::Sizes::calibrated_ok))]
pub fn calibrated(x: Probe, t: Surfaces) -> bool
    ensures { (k : Kind) (a : Probing) → Touches k a t → result ≡ calibrated_ok x.status k a }
{
    match t {
        Surfaces::Plane(touch) => calibrated_on(x, touch.way),
        Surfaces::Pair(pair) => pair_calibrated(x, pair),
        Surfaces::Pairs(both) => {
            pair_calibrated(x, both.abscissa) & pair_calibrated(x, both.ordinate)
        }
    }
}

// The same, of a kind and arguments whose numbers are those of their stores. No call of a user.
pub fn calibrated_ok(x: Probe, k: Kind, a: Probing) -> bool
    requires { numbers_ok k a ≡ true }
    ensures { result ≡ calibrated_ok x.status k a }
{
    calibrated(x, surfaces_of(k, a).unwrap())
}

// Whether every pair measured has its high surface above its low one.
#[tactic(auto, unfolding(rules::specs::Sizes::pairs_ok))]
pub fn widths_ok(k: Kind, a: Probing, s: Sizes) -> bool
    ensures { result ≡ pairs_ok k a s }
{
    match k.form {
        Form::Plane => true,
        Form::Single => 1 <= pair_on(s, a.axis).width,
        Form::Double => (1 <= s.abscissa.width) & (1 <= s.ordinate.width),
    }
}
