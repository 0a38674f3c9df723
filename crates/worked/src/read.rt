// The words and fields of rows and titles, as bytes: a file need not be UTF-8.
ghost use Rattle.std.specs.Prelude.{◌≡◌, ◌↔◌, ◌⊎◌, ◌≤◌, ◌<◌, ◌+◌, ◌*◌, ◌%◌, ◌^◌, pos, ◌≤ℤ◌, ◌<ℤ◌, unsigned_abs, Some, codes, IfSome, [], ◌∷◌, ◌++◌, length, Contains};

use std::str;

// As many fields as a row may have.
pub const MOST: usize = 100;

// The words of titles that ask for another showing, or for float reports.
#[derive(Clone, Copy, Debug, PartialEq, Eq)]
pub enum TitleWord {
    Part,
    Report,
    Reports,
    Room,
}

impl TitleWord {
    // An Option, and no error: most titles have none of these words.
    pub fn of(text: &[u8]) -> Option<TitleWord>
        ensures part { (result ≡ Some TitleWord.Part) ↔ (text.now ≡ codes "part") }
        ensures report { (result ≡ Some TitleWord.Report) ↔ (text.now ≡ codes "report") }
        ensures reports { (result ≡ Some TitleWord.Reports) ↔ (text.now ≡ codes "reports") }
        ensures room { (result ≡ Some TitleWord.Room) ↔ (text.now ≡ codes "room") }
    {
        match text {
            b"part" => Some(TitleWord::Part),
            b"report" => Some(TitleWord::Report),
            b"reports" => Some(TitleWord::Reports),
            b"room" => Some(TitleWord::Room),
            _ => None,
        }
    }
}

// The bytes before the first b, and those behind it: all and none where there is no b.
pub fn parted(s: &[u8], b: u8) -> (&[u8], &[u8])
    ensures first { ¬ Contains result.0.now b }
    ensures whole { (s.now ≡ result.0.now ++ b ∷ result.1.now) ⊎ ((s.now ≡ result.0.now) × (result.1.now ≡ [])) }
{
    match s.iter().position(|x| *x == b) {
        Some(at) => (&s[..at], &s[at + 1..]),
        None => (s, &[]),
    }
}

// The word that a row or a title begins with, and its fields.
pub fn word_and_fields(text: &[u8]) -> (&[u8], &[u8]) {
    parted(text, b',')
}

// The numbers between commas, in the room that is lent for them; none where there are more, or one is no number.
pub fn numbers<'a>(fields: &[u8], room: &'a mut [i64; MOST]) -> Option<&'a [i64]>
    ensures { IfSome result (λ given. length given.now ≤ MOST) }
{
    if fields.is_empty() {
        return Some(&[]);
    }
    let given = room.get_mut(..fields.split(|b| *b == b',').count())?;
    for (place, field) in given.iter_mut().zip(fields.split(|b| *b == b',')) {
        *place = number(field)?;
    }
    Some(given)
}

// Not by parse alone, which takes a plus sign: a number of a row has none.
fn number(field: &[u8]) -> Option<i64> {
    if field.starts_with(b"+") {
        return None;
    }
    str::from_utf8(field).ok()?.parse::<i64>().ok()
}

// The first sizes between commas, 0 for those that are not there. Further ones are passed over.
pub fn sizes<const N: usize>(fields: &[u8]) -> [usize; N] {
    let mut sizes = [0; N];
    for (size, field) in sizes.iter_mut().zip(fields.split(|b| *b == b',')) {
        *size = size_of_digits(field);
    }
    sizes
}

// The size that the digits of a field make, 0 with a minus sign among them. Not by parse: what is no digit is passed over.
fn size_of_digits(field: &[u8]) -> usize
    ensures { Contains field.now 45 → result ≡ 0 }
{
    if field.contains(&b'-') {
        return 0;
    }
    let mut size = 0;
    for b in field {
        if let b'0'..=b'9' = *b {
            size = with_digit(size, *b - b'0');
        }
    }
    size
}

// A size with a digit more behind its own; a digit with which it would be beyond usize is passed over.
fn with_digit(size: usize, digit: u8) -> usize
    ensures taken { size * 10 + digit < 2 ^ 64 → result ≡ size * 10 + digit }
    ensures passed_over { 2 ^ 64 ≤ size * 10 + digit → result ≡ size }
{
    let tens = size.checked_mul(10);
    tens.and_then(|tens| tens.checked_add(usize::from(digit)))
        .unwrap_or(size)
}

// A number as an index or a length, 0 below 0.
pub fn from_zero(n: i64) -> usize
    ensures whole { pos 0 ≤ℤ n → pos result ≡ n }
    ensures below { n <ℤ pos 0 → result ≡ 0 }
{
    usize::try_from(n).unwrap_or(0)
}

// A number as an area holds it, 0 for what it cannot be.
pub fn stored(n: i64) -> i32
    ensures kept { (i32.MIN ≤ℤ n) × (n ≤ℤ i32.MAX) → result ≡ n }
    ensures beyond { (n <ℤ i32.MIN) ⊎ (i32.MAX <ℤ n) → result ≡ pos 0 }
{
    i32::try_from(n).unwrap_or(0)
}

// The low 32 bits of a size.
pub fn low_bits(n: usize) -> u32
    ensures { result ≡ n % 4294967296 }
{
    (n % 4_294_967_296) as u32
}

// The low byte of a number without its sign.
pub fn low_byte(n: i64) -> u8
    ensures { result ≡ unsigned_abs n % 256 }
{
    (n.unsigned_abs() % 256) as u8
}
