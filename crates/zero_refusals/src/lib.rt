// The kind of a measurement with zero offset, and its arguments tested. Document 01, 'Zero offset kinds' and 'Alarm numbers'.
#![tactic(auto)]

ghost use Rattle.std.specs.Prelude.{◌≡◌, IfOk};
ghost use Rattle.package.specs.Given.{zero_by};
ghost use Rattle.package.specs.Refusals.{refusal_in};
ghost use Rattle.rules.specs.Kinds.{zero_kind, zero_kind_number};
ghost use Rattle.rules.specs.Refusals.{first};
ghost use Rattle.rules.specs.Zero.{zero_kind_of, good_zero, zero_at, zero_arguments_with};
ghost use Rattle.rules.specs.Passed.{ZeroArgumentsPassed};
ghost use Rattle.kinds.specs.Touches.{known};

use floats::Raw;
use kind_tests::Probed;
use kinds::kind_of;
use package::arguments::ZeroMeasurement;
use package::found::Kind;
use package::limits::{OFFSET_COUNT, TOLERANCE_LIMIT};
use package::refusals::Refusal;
use signed::in_range;

// What a measurement with zero offset is given, tested, and what it probes.
#[derive(Clone, Copy)]
pub struct PassedZero {
    pub probed: Probed,
    pub given: ZeroMeasurement<i64>,
    pub ghost named: { probed.kind ≡ zero_kind_of given },
    pub ghost probing: { (probed.probing ≡ given.probing) × (probed.raws ≡ given.raws) },
    pub ghost passed: { ZeroArgumentsPassed given },
}

// The kind of a number with zero offset; a plane where there is none, as the rules have it.
pub fn zero_kind_of(n: i64) -> Kind
    ensures { result ≡ zero_kind n }
{
    match n {
        100..=104 => kind_of(n - 100),
        _ => kind_of(0),
    }
}

// The same, where its number is one; no TryFrom, as in kinds.
#[inline(always)]
fn zero_kind(n: i64) -> Result<Kind, Refusal>
    ensures { result ≡ known (zero_kind_number n) (zero_kind n) }
{
    if !in_range(n, 100, 104) {
        return Err(Refusal::NoSuchNumber);
    }
    Ok(zero_kind_of(n))
}

// The arguments tested, with the positions that the raws give.
#[tactic(auto, unfolding(rules::specs::Zero::zero_arguments_with))]
#[inline(always)]
pub fn passed_zero<T: Raw>(a: ZeroMeasurement<T>) -> Result<PassedZero, Refusal>
    ensures refusal { let t = zero_by T.reading a in refusal_in result ≡ first (zero_arguments_with (good_zero t) (zero_at t)) }
    ensures given { IfOk result (λ z. z.given ≡ zero_at (zero_by T.reading a)) }
{
    let kind = zero_kind(a.probing.kind)?;
    if !in_range(a.offset, 1, OFFSET_COUNT) {
        return Err(Refusal::NoSuchNumber);
    }
    let probed = Probed::tested(kind, a.probing, a.raws)?;
    if !in_range(a.tsa, 0, TOLERANCE_LIMIT) {
        return Err(Refusal::WrongLimits);
    }
    let given = a.with_raws(probed.raws);
    Ok(PassedZero { probed, given })
}
