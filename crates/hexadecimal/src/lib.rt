// The bits of a float, in hexadecimal digits at the front of a field. Request 2026-01.
#![tactic(auto)]

ghost use Rattle.std.specs.Prelude.{◌≡◌, ◌≤◌};
ghost use Rattle.text.specs.Pieces.{field};
ghost use Rattle.text.specs.Reading.{Reads};
ghost use Rattle.hexadecimal.specs.Hexadecimal.{digit_of, hex_of};

use text::{Ended, Field, NOUGHT};

const SMALL_A: u8 = b'a';

// How many digits a float's bits have.
const DIGITS: usize = 8;

// What a digit spells, 16 where the byte is none. No to_digit, which takes capitals; no Option, since the eight digits are taken at once, before one test.
fn digit_of(b: u8) -> u8
    ensures { (result ≡ digit_of b) × (result ≤ 16) }
{
    let d = b.wrapping_sub(NOUGHT);
    if d <= 9 {
        return d;
    }
    let e = b.wrapping_sub(SMALL_A);
    if e <= 5 {
        return e + 10;
    }
    16
}

// The number at the front, whose bytes are all looked at before one test of them.
pub fn read_hexadecimal(rest: Ended) -> Option<Field<i64>>
    ensures { Reads hex_of result (field rest.entry.bytes.now) }
{
    let digits = rest.bytes.first_chunk::<DIGITS>()?;
    let mut n: u64 = 0;
    let mut good = true;
    for b in digits {
        let d = digit_of(*b);
        n = 16 * n + u64::from(d);
        if 15 < d {
            good = false;
        }
    }
    if !good {
        return None;
    }
    Some(Field {
        value: n as i64,
        size: DIGITS,
    })
}
