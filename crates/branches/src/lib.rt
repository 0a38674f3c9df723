// The branch. Document 01, 'Tolerance, mean, correction'.
#![tactic(auto)]

ghost use Rattle.std.specs.Prelude.{◌≡◌, ◌≤◌, nat_abs};
ghost use Rattle.rules.specs.Tool.{branch_of};

use package::arguments::Limits;
use package::found::Branch;
use signed::magnitude;

// The branch, by whether a mean is named, what its new value would be, and D: side by side and in no struct, as the rule has them. No call of a user.
#[tactic(auto, unfolding(rules::specs::Tool::branch_of))]
pub fn branch_of(l: Limits, named: bool, next: i64, d: i64) -> Branch
    requires { (nat_abs next ≤ 1000000000) × (nat_abs d ≤ 1000000000) }
    ensures { result ≡ branch_of l named next d }
{
    let far = magnitude(d);
    if l.tmv < far {
        return Branch::Five;
    }
    if named {
        if l.tzl < magnitude(next) {
            return Branch::Four;
        }
        return Branch::Three;
    }
    if l.tzl < far {
        return Branch::Two;
    }
    Branch::One
}
