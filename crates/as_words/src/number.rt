ghost use Rattle.std.specs.Prelude.{◌≡◌, ◌^◌, ◌+◌, ◌*◌, ◌<◌, ◌≤◌, SomeIff, pos, neg_ℤ};
ghost use Rattle.std.specs.Char.{digit_value};
ghost use Rattle.std.specs.Str.Parse.{AllDigits, digits_value};
ghost use Rattle.as_words.specs.Number.{natural, integer, wide_integer};

use itoa::Buffer;

/// The magnitude of the least `i64`: 2^63.
pub const LEAST: u64 = 1 << 63;

// The number with one more digit, if the byte is a digit and the number fits.
fn with_digit(number: u64, byte: u8) -> Option<u64>
    ensures { SomeIff result
        ((digit_value byte < 10) × (number * 10 + digit_value byte < 2 ^ 64))
        (number * 10 + digit_value byte) }
{
    if !byte.is_ascii_digit() {
        return None;
    }
    number.checked_mul(10)?.checked_add(u64::from(byte - b'0'))
}

// The number that the digits write, if all bytes are digits and the number fits.
fn from_digits(word: &[u8]) -> Option<u64>
    ensures { SomeIff result
        (AllDigits 10 word.now × (digits_value 10 word.now < 2 ^ 64))
        (digits_value 10 word.now) }
{
    let mut number = 0;
    for byte in word {
        number = with_digit(number, *byte)?;
    }
    Some(number)
}

/// The number that the word spells, each number in its one spelling: `0`, or digits of which the first is not 0.
pub fn parse_natural(word: &[u8]) -> Option<u64>
    ensures { result ≡ natural (2 ^ 64) word.now }
{
    let first = *word.first()?;
    if first == b'0' && word.len() > 1 {
        return None;
    }
    from_digits(word)
}

/// The number below the limit that the word spells, as `parse_natural` reads it.
pub fn parse_below(word: &[u8], limit: u64) -> Option<u64>
    ensures { result ≡ natural limit word.now }
{
    let number = parse_natural(word)?;
    (number < limit).then_some(number)
}

// The negative number of this magnitude, if it fits.
fn negative(magnitude: u64) -> Option<i64>
    ensures { SomeIff result ((0 < magnitude) × (magnitude ≤ 2 ^ 63)) (neg_ℤ (pos magnitude)) }
{
    if magnitude == 0 || magnitude > LEAST {
        return None;
    }
    Some(-1 - (magnitude - 1) as i64)
}

/// The number from -2^63 to 2^63 - 1 that the word spells, each in its one spelling: that of `parse_natural`, or `-` and
/// that of a number above 0.
pub fn parse_integer(word: &[u8]) -> Option<i64>
    ensures { result ≡ integer word.now }
{
    match word.strip_prefix(b"-".as_slice()) {
        Some(digits) => negative(parse_natural(digits)?),
        None => i64::try_from(parse_natural(word)?).ok(),
    }
}

/// The number from -2^127 to 2^127 - 1 that the word spells, each in its one spelling: the one that is written as the word.
pub fn parse_wide(word: &[u8]) -> Option<i128>
    ensures { result ≡ wide_integer word.now }
{
    let text = str::from_utf8(word).ok()?;
    let number = text.parse::<i128>().ok()?;
    (Buffer::new().format(number).as_bytes() == word).then_some(number)
}
