// The mean after one more deviation. Document 01, 'Tolerance, mean, correction'.
#![tactic(auto)]

ghost use Rattle.std.specs.Prelude.{◌≡◌, true, ◌≤◌, pos, nat_abs};
ghost use Rattle.signed.specs.Ranges.{within};
ghost use Rattle.rules.specs.Mean.{mean_step};

use signed::rounded_quotient;

// The mean m after one more deviation d with weighting factor k: less (m - d) / k rounded, halves away from zero. Its bounds and those of decisions and branches stand
// in clauses, since they are of other numbers. No call of a user.
pub fn mean_step(m: i64, d: i64, k: i64) -> i64
    requires m_bound { (nat_abs m ≤ 100000000) × (nat_abs d ≤ 100000000) }
    requires k_value { within (pos 1) (pos 1000) k ≡ true }
    ensures { result ≡ mean_step m d (nat_abs k) }
{
    m - rounded_quotient(m - d, k)
}
