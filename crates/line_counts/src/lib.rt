// How many lines a text has. Document 01, 'Job files'.
#![tactic(auto)]

ghost use Rattle.std.specs.Prelude.{◌≡◌, ◌≤◌, length};
ghost use Rattle.text.specs.Pieces.{lines};

use text::LINE_FEED;

// Bytes whose line feeds are counted at a time.
const BLOCK: usize = 128;

// How many lines a block ends, in a byte: 16 of them are added at once.
fn count_block(s: &[u8]) -> u8
    requires { length s.now ≤ 128 }
    ensures { result ≡ length (lines s.now) }
{
    s.iter().map(|b| u8::from(*b == LINE_FEED)).sum()
}

// How many lines there are.
pub fn count_lines(s: &[u8]) -> usize
    ensures { result ≡ length (lines s.now) }
{
    let (blocks, rest) = s.as_chunks::<BLOCK>();
    let mut n = usize::from(count_block(rest));
    for block in blocks {
        n += usize::from(count_block(block));
    }
    n
}
