ghost use Rattle.std.specs.Prelude.{◌≡◌, ◌<◌, ◌≤◌, ℕ, List, false, map, take, get_or, length, decimal, IfSome};
ghost use Rattle.std.specs.Char.{digit_value};
ghost use Rattle.std.specs.Int.Digits.{AllBelowBase, number_from_digits};
ghost use Rattle.std.specs.List.{AllByRecursion};
ghost use Rattle.std.specs.Str.Parse.{AllDigits, digits_value};
ghost use Rattle.as_lineform.specs.Digits.{IsDigit, IsWordOf, last_digits};

// The digit 0 in each byte of a word.
const ZEROS: u64 = 0x3030_3030_3030_3030;

// The upper half of each byte of a word.
const UPPER: u64 = 0xf0f0_f0f0_f0f0_f0f0;

// Added to a byte's value, it reaches the byte's upper half where the value is above 9.
const SIXES: u64 = 0x0606_0606_0606_0606;

// Below this a number has room for one more digit.
const ROOM: u64 = 1_000_000_000_000_000_000;

// The values of a word's bytes, if each is a digit: bytes with the upper half of '0', that much below it that adding 6
// leaves the upper half as it is.
#[inline(always)]
fn values_of(word: u64) -> Option<u64>
    ensures { (bytes : List ℕ) → IsWordOf bytes word → IfSome result (λ values.
        AllDigits 10 bytes × IsWordOf (map digit_value bytes) values) }
{
    if word & UPPER != ZEROS {
        return None;
    }
    let values = word - ZEROS;
    if (values + SIXES) & UPPER != 0 {
        return None;
    }
    Some(values)
}

// The number that the bytes of a word write as digits, the lowest first: pairs of them, then fours, then all eight.
#[inline(always)]
fn number_of(values: u64) -> u64
    requires { values ≤ 651061555542690057 }
    ensures { (digits : List ℕ) → IsWordOf digits values → AllBelowBase 10 digits → result ≡ number_from_digits 10 digits }
{
    let pairs = (values * 10 + (values >> 8)) & 0x00ff_00ff_00ff_00ff;
    let fours = (pairs * 100 + (pairs >> 16)) & 0x0000_ffff_0000_ffff;
    (fours * 10_000 + (fours >> 32)) & 0xffff_ffff
}

// The number that the first eight bytes write, if these are digits.
#[inline(always)]
fn eight_digits(bytes: &[u8]) -> Option<u64>
    ensures some { IfSome result (λ _. 8 ≤ length bytes.now) }
    ensures digits { IfSome result (λ _. AllDigits 10 (take 8 bytes.now)) }
    ensures number { IfSome result (λ number. number ≡ digits_value 10 (take 8 bytes.now)) }
    ensures small { IfSome result (λ number. number < 100000000) }
{
    let eight = bytes.first_chunk::<8>()?;
    let values = values_of(u64::from_le_bytes(*eight))?;
    Some(number_of(values))
}

// The number that the first sixteen bytes write, or the first eight, if these are digits, and how many these are; else
// no digits.
#[inline(always)]
fn leading_eights(bytes: &[u8]) -> (u64, usize)
    ensures within { result.1 ≤ length bytes.now }
    ensures digits { AllDigits 10 (take result.1 bytes.now) }
    ensures number { result.0 ≡ digits_value 10 (take result.1 bytes.now) }
{
    let Some(first) = eight_digits(bytes) else {
        return (0, 0);
    };
    let Some(second) = eight_digits(&bytes[8..]) else {
        return (first, 8);
    };
    (first * 100_000_000 + second, 16)
}

// All but the highest bit of each byte of a word.
const LOWER: u64 = 0x7f7f_7f7f_7f7f_7f7f;

// The highest bit of each byte of a word.
const HIGHEST: u64 = 0x8080_8080_8080_8080;

// Added to a number of seven bits, it reaches the highest bit of its byte where the number is above 9.
const TO_HIGHEST: u64 = 0x7676_7676_7676_7676;

// How many digits stand at the front of a word. A byte that differs from the digit 0 by a number above 9 has its highest
// bit marked.
#[inline(always)]
fn count_digits(word: u64) -> usize
    ensures few { result ≤ 8 }
    ensures digits { (bytes : List ℕ) → IsWordOf bytes word → AllByRecursion IsDigit (take result bytes) }
{
    let values = word ^ ZEROS;
    let others = (((values & LOWER) + TO_HIGHEST) | values) & HIGHEST;
    others.trailing_zeros() as usize / 8
}

// The values of the digits at the front of a word, so many, moved to its end, with zeros before them.
#[inline(always)]
fn last_digits(word: u64, count: usize) -> u64
    requires some { 1 ≤ count }
    requires few { count < 8 }
    ensures { (bytes : List ℕ) → IsWordOf bytes word → AllByRecursion IsDigit (take count bytes) →
        IsWordOf (last_digits count bytes) result }
{
    (word ^ ZEROS) << (64 - 8 * count)
}

// A 0 stands before further digits.
#[inline(always)]
fn leads_with_zero(digits: &[u8]) -> bool
    ensures { result ≡ false → get_or digits.now 0 0 ≡ 48 → length digits.now ≤ 1 }
{
    digits.len() > 1 && digits[0] == b'0'
}

// The number that the digits at the front write, and how many these are, where it is one to seven digits, of which the
// first is not 0 where others follow it. It may give up.
#[inline(always)]
fn short_number(bytes: &[u8]) -> Option<(u64, usize)>
    ensures within { IfSome result (λ read. read.1 ≤ length bytes.now) }
    ensures reads { IfSome result (λ read. take read.1 bytes.now ≡ decimal read.0) }
{
    let eight = bytes.first_chunk::<8>()?;
    let word = u64::from_le_bytes(*eight);
    let count = count_digits(word);
    if count == 0 || count == 8 {
        return None;
    }
    if leads_with_zero(&bytes[..count]) {
        return None;
    }
    Some((number_of(last_digits(word, count)), count))
}

// How many of the first eight bytes are digits at the front; none where there are fewer bytes.
#[inline(always)]
fn digits_of_eight(bytes: &[u8]) -> usize
    ensures { result ≤ length bytes.now }
{
    match bytes.first_chunk::<8>() {
        Some(eight) => count_digits(u64::from_le_bytes(*eight)),
        None => 0,
    }
}

// How many digits stand at the front. What is read by it is tested again.
#[inline(never)]
fn digits_at_front(bytes: &[u8]) -> usize
    ensures { result ≤ length bytes.now }
{
    let mut count = digits_of_eight(bytes);
    'digits: while count < bytes.len() && bytes[count].is_ascii_digit() {
        count += 1;
    }
    count
}

// The number that the digits of a word write, if all bytes are digits. It gives up at more than 19.
#[inline(never)]
fn long_number(word: &[u8]) -> Option<u64>
    ensures digits { IfSome result (λ _. AllDigits 10 word.now) }
    ensures number { IfSome result (λ number. number ≡ digits_value 10 word.now) }
{
    let (mut number, mut count) = leading_eights(word);
    'rest: while count < word.len() {
        let byte = word[count];
        if !byte.is_ascii_digit() || number >= ROOM {
            return None;
        }
        number = number * 10 + u64::from(byte - b'0');
        count += 1;
    }
    Some(number)
}

// The number that all bytes of a word write, if it is in its one spelling. It gives up at more than 19 digits.
#[inline(always)]
fn spelled_number(word: &[u8]) -> Option<u64>
    ensures { IfSome result (λ number. word.now ≡ decimal number) }
{
    if word.is_empty() {
        return None;
    }
    if leads_with_zero(word) {
        return None;
    }
    let number = long_number(word)?;
    Some(number)
}

/// The number that the digits at the front write, and how many these are. It gives up where there is none, where a 0
/// stands before further ones, and at more than 19.
#[inline(always)]
pub fn leading_number(bytes: &[u8]) -> Option<(u64, usize)>
    ensures within { IfSome result (λ read. read.1 ≤ length bytes.now) }
    ensures reads { IfSome result (λ read. take read.1 bytes.now ≡ decimal read.0) }
{
    if let Some(read) = short_number(bytes) {
        return Some(read);
    }
    let count = digits_at_front(bytes);
    let number = spelled_number(&bytes[..count])?;
    Some((number, count))
}
