// The tests by kind on the arguments, which both ways of measuring share: numbers, positions. Document 01, 'Measured sizes' and 'Alarm numbers'.
#![tactic(auto)]

ghost use Rattle.std.specs.Prelude.{◌≡◌, true, [], ◌∷◌, IfOk};
ghost use Rattle.lists.specs.Each.{every};
ghost use Rattle.package.specs.Given.{raws_by};
ghost use Rattle.package.specs.Refusals.{refusal_in};
ghost use Rattle.rules.specs.Stores.{position_range, width_range};
ghost use Rattle.rules.specs.Refusals.{first};
ghost use Rattle.rules.specs.Readings.{raws_of};
ghost use Rattle.rules.specs.Sizes.{numbers_ok, positions_ok};
ghost use Rattle.kinds.specs.Touches.{Touches};
ghost use Rattle.kinds.specs.KindLaws.{touches_prop};
ghost use Rattle.kind_tests.specs.Probing.{probing_rules, NumbersIf};

use floats::{Raw, positions_of};
use kinds::{Surfaces, single_centre, surfaces_of};
use package::arguments::{Probing, Raws};
use package::found::{Form, Kind};
use package::limits::{POSITION_LIMIT, PROBE_COUNT};
use package::refusals::Refusal;
use signed::in_range;

// What is probed, tested, and what that touches: the numbers that its kind uses are numbers of their stores, its positions, set centres and setpoint in range.
#[derive(Clone, Copy)]
pub struct Probed {
    pub kind: Kind,
    pub probing: Probing,
    pub raws: Raws<i64>,
    pub surfaces: Surfaces,
    pub ghost numbers: { numbers_ok kind probing ≡ true },
    pub ghost positions: { positions_ok kind probing raws ≡ true },
    pub ghost touched: { Touches kind probing surfaces } by { touches_prop kind probing surfaces },
}

impl Probed {
    // The arguments of a measurement of a kind, with the positions that its raws give.
    #[inline(always)]
    pub fn tested<T: Raw>(kind: Kind, probing: Probing, raws: Raws<T>) -> Result<Probed, Refusal>
        ensures refusal { refusal_in result ≡ first (probing_rules kind probing (raws_by T.reading raws)) }
        ensures given { IfOk result (λ p. (p.kind ≡ kind) × (p.probing ≡ probing) × (p.raws ≡ raws_of kind probing (raws_by T.reading raws))) }
    {
        let surfaces = numbered(kind, probing)?;
        let raws = positions_of(kind, probing, raws).ok_or(Refusal::BadFloat)?;
        if positions_ok(kind, probing, raws) {
            Ok(Probed {
                kind,
                probing,
                raws,
                surfaces,
            })
        } else {
            Err(Refusal::OutsideRange)
        }
    }
}

// What is touched, where the numbers that the kind uses are numbers of their stores.
#[tactic(auto, unfolding(rules::specs::Sizes::numbers_ok))]
#[inline(always)]
pub fn numbered(k: Kind, a: Probing) -> Result<Surfaces, Refusal>
    ensures { NumbersIf k a result }
{
    if !in_range(a.probe, 1, PROBE_COUNT) {
        return Err(Refusal::NoSuchNumber);
    }
    surfaces_of(k, a)
}

// Whether the used positions, set centres and setpoint are in range.
#[inline(always)]
pub fn positions_ok(k: Kind, a: Probing, q: Raws<i64>) -> bool
    ensures { result ≡ positions_ok k a q }
{
    match k.form {
        Form::Plane => position_ok(q.r1) & position_ok(a.setpoint),
        Form::Single => both_ok(q.r1, q.r2) & position_ok(single_centre(a)) & width_ok(a.setpoint),
        Form::Double => {
            let raws = both_ok(q.r1, q.r2) & both_ok(q.r3, q.r4);
            raws & both_ok(a.c1, a.c2) & width_ok(a.setpoint)
        }
    }
}

fn position_ok(v: i64) -> bool
    ensures { result ≡ position_range v }
{
    in_range(v, -POSITION_LIMIT, POSITION_LIMIT)
}

fn both_ok(v: i64, w: i64) -> bool
    ensures { result ≡ every position_range (v ∷ w ∷ []) }
{
    position_ok(v) & position_ok(w)
}

fn width_ok(v: i64) -> bool
    ensures { result ≡ width_range v }
{
    in_range(v, 1, POSITION_LIMIT)
}
