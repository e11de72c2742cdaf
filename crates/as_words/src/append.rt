ghost use Rattle.std.specs.Prelude.{◌≡◌, ◌∷◌, decimal, map, take, OnOk, OnErr};
ghost use Rattle.std.specs.Fmt.{signed_decimal};
ghost use Rattle.as_words.specs.Appends.{Appends, AppendsPrefix};
ghost use Rattle.as_words.specs.Words.{spaced};

use itoa::Buffer;
use std::alloc::AllocError;

/// Appends a number in decimal. After want of memory `out` is unchanged.
pub fn append_decimal(n: u64, out: &mut Vec<u8>) -> Result<(), AllocError>
    ensures { Appends result out.old.items out.new.items (decimal n) }
{
    out.extend_from_slice(Buffer::new().format(n).as_bytes())
}

/// Appends a signed number in decimal. After want of memory `out` is unchanged.
pub fn append_signed(z: i64, out: &mut Vec<u8>) -> Result<(), AllocError>
    ensures { Appends result out.old.items out.new.items (signed_decimal z) }
{
    out.extend_from_slice(Buffer::new().format(z).as_bytes())
}

/// Appends a space and the word. After want of memory `out` has grown by a prefix of them.
pub fn append_spaced(word: &[u8], out: &mut Vec<u8>) -> Result<(), AllocError>
    ensures { AppendsPrefix result out.old.items out.new.items (32 ∷ word.now) }
{
    out.extend_from_slice(b" ")?;
    out.extend_from_slice(word)
}

/// Appends a space and the number in decimal. After want of memory `out` has grown by a prefix of them.
pub fn append_spaced_decimal(n: u64, out: &mut Vec<u8>) -> Result<(), AllocError>
    ensures { AppendsPrefix result out.old.items out.new.items (32 ∷ decimal n) }
{
    append_spaced(Buffer::new().format(n).as_bytes(), out)
}

/// Appends a space and the signed number in decimal. After want of memory `out` has grown by a prefix of them.
pub fn append_spaced_signed(z: i64, out: &mut Vec<u8>) -> Result<(), AllocError>
    ensures { AppendsPrefix result out.old.items out.new.items (32 ∷ signed_decimal z) }
{
    append_spaced(Buffer::new().format(z).as_bytes(), out)
}

/// Appends the signed numbers in decimal, each after a space. After want of memory `out` has grown by a prefix of them.
pub fn append_spaced_numbers(numbers: &[i64], out: &mut Vec<u8>) -> Result<(), AllocError>
    ensures { AppendsPrefix result out.old.items out.new.items (spaced (map signed_decimal numbers.now)) }
{
    for number in numbers {
        append_spaced_signed(*number, out)?;
    }
    Ok(())
}

/// Where a text was not appended whole, takes off what was appended since `out` had the length `start`, so that the
/// buffer is as it was.
pub fn whole_or_none(
    appended: Result<(), AllocError>,
    start: usize,
    out: &mut Vec<u8>,
) -> Result<(), AllocError>
    ensures same { result ≡ appended }
    ensures ok { OnOk result (out.new.items ≡ out.old.items) }
    ensures err { OnErr result (out.new.items ≡ take start out.old.items) }
{
    if appended.is_err() {
        out.truncate(start);
    }
    appended
}
