// The decision in a branch: correction and mean. Document 01, 'Tolerance, mean, correction'.
#![tactic(auto)]

ghost use Rattle.std.specs.Prelude.{◌≡◌, ◌≤◌, nat_abs};
ghost use Rattle.rules.specs.Tool.{decided_by};

use branches::branch_of;
use package::arguments::Limits;
use package::found::{Branch, Decision};

// The decision, of the old mean, what its new value would be, and D, side by side as for the branch. No call of a user.
pub fn decide(l: Limits, named: bool, old: i64, next: i64, d: i64) -> Decision
    requires { (nat_abs next ≤ 1000000000) × (nat_abs d ≤ 1000000000) }
    ensures { result ≡ decided_by l named old next d }
{
    let branch = branch_of(l, named, next, d);
    let (correction, mean) = match branch {
        Branch::One => (0, old),
        Branch::Two => (d, old),
        Branch::Three => (0, next),
        Branch::Four => (next, 0),
        Branch::Five => (d, 0),
    };
    Decision {
        branch,
        correction,
        mean,
    }
}
