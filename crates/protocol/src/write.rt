// Notations, written at the end of a line, each so that reading it gives back what was written.
ghost use Rattle.std.specs.Prelude.{◌≡◌, ℕ, ◌<◌, ◌≤◌, ◌++◌, map, Ok, OnOk};
ghost use Rattle.std.specs.Char.{digit_char};
ghost use Rattle.std.specs.Int.Digits.{digits_of};
ghost use Rattle.protocol.specs.Digits.{figures, decimal, hexadecimal};
ghost use Rattle.protocol.specs.Reading.{number_of};
ghost use Rattle.protocol.specs.Strings.{byte_string, pairs, string_of};

use std::alloc::AllocError;

// The character of a digit. The library's `from_digit` gives an `Option<char>`, which is longer to turn into a byte.
fn digit_char(d: u8) -> u8
    requires { d < 16 }
    ensures { result ≡ digit_char d }
{
    if d < 10 { b'0' + d } else { b'a' + (d - 10) }
}

// The digits of `n`, the highest first, and none for 0. The library's printing says which hexadecimal digits it writes
// only up to 64 bits.
fn push_digits(line: &mut Vec<u8>, base: u128, n: u128) -> Result<(), AllocError>
    requires low { 2 ≤ base }
    requires high { base ≤ 16 }
    ensures { OnOk result (line.new.items ≡ line.old.items ++ map digit_char (digits_of base n)) }
{
    if n > 0 {
        push_digits(line, base, n / base)?;
        line.push(digit_char((n % base) as u8))?;
    }
    Ok(())
}

// The digits of a number in either base: one function for both, which decimal shares with hexadecimal.
fn push_figures(line: &mut Vec<u8>, base: u128, n: u128) -> Result<(), AllocError>
    requires low { 2 ≤ base }
    requires high { base ≤ 16 }
    ensures { OnOk result (line.new.items ≡ line.old.items ++ figures base n) }
{
    if n == 0 {
        line.push(b'0')?;
        return Ok(());
    }
    push_digits(line, base, n)
}

pub fn push_decimal(line: &mut Vec<u8>, n: u128) -> Result<(), AllocError>
    ensures text { OnOk result (line.new.items ≡ line.old.items ++ decimal n) }
    ensures back { OnOk result ((limit : ℕ) → n < limit → number_of limit (decimal n) ≡ Ok n) }
{
    push_figures(line, 10, n)
}

// `0x` and the digits in lower case.
pub fn push_hex(line: &mut Vec<u8>, n: u128) -> Result<(), AllocError>
    ensures text { OnOk result (line.new.items ≡ line.old.items ++ hexadecimal n) }
    ensures back { OnOk result ((limit : ℕ) → n < limit → number_of limit (hexadecimal n) ≡ Ok n) }
{
    line.extend_from_slice(b"0x")?;
    push_figures(line, 16, n)
}

fn push_pairs(line: &mut Vec<u8>, bytes: &[u8]) -> Result<(), AllocError>
    ensures { OnOk result (line.new.items ≡ line.old.items ++ pairs bytes.now) }
{
    for b in bytes {
        line.push(digit_char(*b / 16))?;
        line.push(digit_char(*b % 16))?;
    }
    Ok(())
}

// Two lower-case hexadecimal digits a byte, or `-` for none.
pub fn push_bytes(line: &mut Vec<u8>, bytes: &[u8]) -> Result<(), AllocError>
    ensures text { OnOk result (line.new.items ≡ line.old.items ++ string_of bytes.now) }
    ensures back { OnOk result (byte_string (string_of bytes.now) ≡ Ok bytes.now) }
{
    if bytes.is_empty() {
        line.push(b'-')?;
        return Ok(());
    }
    push_pairs(line, bytes)
}
