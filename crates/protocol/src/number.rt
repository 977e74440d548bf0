// Numbers: decimal, or hexadecimal after `0x`, with digits of either case; signed ones may have `-` in front.
ghost use Rattle.std.specs.Prelude.{◌≡◌, ℕ, ◌+◌, ◌-◌, ◌^◌, ◌≤◌, IfOk, if◌then◌else◌, Ok, Err};
ghost use Rattle.std.specs.List.{list_all};
ghost use Rattle.std.specs.Result.{result_map_both};
ghost use Rattle.std.specs.Str.Parse.{digits_value};
ghost use Rattle.protocol.specs.Reading.{is_digit, held, longer, numeral_of, number_of, signed_of};
ghost use Rattle.protocol.specs.declared.bad.Bad.TheVariants.{NotANumber};

use crate::bad::Bad;

// A number so far with one digit more, or none where 128 bits do not hold it.
fn appended(n: Option<u128>, radix: u32, digit: u32) -> Option<u128>
    ensures { result ≡ longer radix digit n }
{
    n?.checked_mul(u128::from(radix))?
        .checked_add(u128::from(digit))
}

// The number that digits write, or none where 128 bits do not hold it; where something else is among them, it is no number.
// By one loop: `str::from_utf8` and `from_str_radix` would go over the text three times.
fn digits_value(text: &[u8], radix: u32) -> Result<Option<u128>, Bad>
    requires low { 2 ≤ radix }
    requires high { radix ≤ 36 }
    ensures { result ≡ (if list_all (is_digit radix) text.now then Ok (held (digits_value radix text.now)) else Err NotANumber) }
{
    let mut n = Some(0);
    for b in text {
        let digit = char::from(*b).to_digit(radix).ok_or(Bad::NotANumber)?;
        n = appended(n, radix, digit);
    }
    Ok(n)
}

// A number of at most `most`, in digits alone.
fn numeral(text: &[u8], radix: u32, most: u128) -> Result<u128, Bad>
    requires low { 2 ≤ radix }
    requires high { radix ≤ 36 }
    ensures value { result ≡ numeral_of (most + 1) radix text.now }
    ensures bound { IfOk result (λ n. n ≤ most) }
{
    if text.is_empty() {
        return Err(Bad::NotANumber);
    }
    match digits_value(text, radix)? {
        Some(n) if n <= most => Ok(n),
        _ => Err(Bad::TooLarge),
    }
}

fn number_up_to(text: &[u8], most: u128) -> Result<u128, Bad>
    ensures value { result ≡ number_of (most + 1) text.now }
    ensures bound { IfOk result (λ n. n ≤ most) }
{
    match text.strip_prefix(b"0x") {
        Some(digits) => numeral(digits, 16, most),
        None => numeral(text, 10, most),
    }
}

// The unsigned types that a number is read as. The clause of `number` names the largest one, which no `TryFrom` does.
pub trait Unsigned {
    ghost MOST: { ℕ };

    // The largest number that the type holds.
    const MOST: u128;

    // The number that a value is.
    ghost value: { Self → ℕ };

    fn narrowed(n: u128) -> Self
        requires { n ≤ MOST }
        ensures { value result ≡ n };
}

impl Unsigned for u8 {
    ghost MOST = { 2 ^ 8 - 1 };

    const MOST: u128 = u8::MAX as u128;

    ghost value = { λ n. n };

    fn narrowed(n: u128) -> u8 {
        n as u8
    }
}

impl Unsigned for u16 {
    ghost MOST = { 2 ^ 16 - 1 };

    const MOST: u128 = u16::MAX as u128;

    ghost value = { λ n. n };

    fn narrowed(n: u128) -> u16 {
        n as u16
    }
}

impl Unsigned for u32 {
    ghost MOST = { 2 ^ 32 - 1 };

    const MOST: u128 = u32::MAX as u128;

    ghost value = { λ n. n };

    fn narrowed(n: u128) -> u32 {
        n as u32
    }
}

impl Unsigned for u64 {
    ghost MOST = { 2 ^ 64 - 1 };

    const MOST: u128 = u64::MAX as u128;

    ghost value = { λ n. n };

    fn narrowed(n: u128) -> u64 {
        n as u64
    }
}

impl Unsigned for u128 {
    ghost MOST = { 2 ^ 128 - 1 };

    const MOST: u128 = u128::MAX;

    ghost value = { λ n. n };

    fn narrowed(n: u128) -> u128 {
        n
    }
}

// A number that `T` holds.
pub fn number<T: Unsigned>(text: &[u8]) -> Result<T, Bad>
    ensures { result_map_both T.value (λ e. e) result ≡ number_of (T.MOST + 1) text.now }
{
    let n = number_up_to(text, T::MOST)?;
    Ok(T::narrowed(n))
}

// A signed number of 32 bits, negative after `-`. Its bounds are tested before, so the casts are proved to lose nothing.
pub fn signed_number(text: &[u8]) -> Result<i32, Bad>
    ensures { result ≡ signed_of text.now }
{
    match text.strip_prefix(b"-") {
        Some(digits) => {
            let n = number_up_to(digits, 0x8000_0000)?;
            Ok(-(n as i64) as i32)
        }
        None => {
            let n = number_up_to(text, 0x7fff_ffff)?;
            Ok(n as i32)
        }
    }
}
