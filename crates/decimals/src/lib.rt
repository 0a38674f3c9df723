// Numbers written into a lent buffer. Document 01, 'Job files'.
#![tactic(auto)]

ghost use Rattle.std.specs.Prelude.{◌≡◌, List, ◌∷◌, [], ℕ, ◌+◌, ◌≤◌, length};
ghost use Rattle.lists.specs.Written.{written};
ghost use Rattle.decimals.specs.Decimals.{decimal, signed_decimal};

use text::{MINUS, NOUGHT};

// Writes a byte at a place; answers the place behind it. A place stands beside the buffer here and below: were each text written to the front of a slice, a caller
// would slice again before each and add up the lengths. No call of a user.
#[tactic(auto, using(lists::specs::WrittenLaws::written_set))]
pub fn put_byte(out: &mut [u8], at: usize, b: u8) -> usize
    requires { at + 1 ≤ length out.old }
    ensures { (result ≡ at + 1) × (out.new ≡ written out.old at (b ∷ [])) }
{
    out[at] = b;
    at + 1
}

// How many digits a number has. Most numbers of an answer have one: the test in front spares them the logarithm, some five instructions for each.
fn digit_count(n: u32) -> usize
    ensures { result ≡ length (decimal n) }
{
    if n < 10 {
        return 1;
    }
    n.ilog10() as usize + 1
}

// A number that is written in decimal digits.
pub trait Decimal: Copy {
    ghost text: { Self → List ℕ };

    // Writes the number from a place on; answers the place behind it. No call of a user.
    fn put(self, out: &mut [u8], at: usize) -> usize
        requires { at + length (text self) ≤ length out.old }
        ensures { (result ≡ at + length (text self)) × (out.new ≡ written out.old at (text self)) };
}

// Its last digit is written first.
impl Decimal for u32 {
    ghost text = { decimal };

    // Not by `write!`, of which nothing is known; by an index, since the last digit comes first.
    fn put(self, out: &mut [u8], at: usize) -> usize {
        let end = at + digit_count(self);
        let mut m = self;
        for k in (at + 1..end).rev() {
            out[k] = NOUGHT + (m % 10) as u8;
            m /= 10;
        }
        out[at] = NOUGHT + m as u8;
        end
    }
}

impl Decimal for i32 {
    ghost text = { signed_decimal };

    fn put(self, out: &mut [u8], at: usize) -> usize {
        if self < 0 {
            let k = put_byte(out, at, MINUS);
            return self.unsigned_abs().put(out, k);
        }
        self.unsigned_abs().put(out, at)
    }
}
