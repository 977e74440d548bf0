// Byte strings: two lower-case hexadecimal digits a byte, or `-` for none.
ghost use Rattle.std.specs.Prelude.{◌≡◌, true, ◌⊎◌, Ok, Err, Some, None, MatchResult, if◌then◌else◌};
ghost use Rattle.std.specs.List.{list_all};
ghost use Rattle.protocol.specs.Strings.{nibble_of, is_hex, paired, byte_string};
ghost use Rattle.protocol.specs.declared.bad.Bad.TheVariants.{NoMemory};

use crate::bad::Bad;
use crate::parts::is_dash;
use std::alloc::Global;

// The value of a digit. The library's `to_digit` would take upper case too.
fn nibble(b: u8) -> Option<u8>
    ensures { result ≡ (if is_hex b then Some (nibble_of b) else None) }
{
    match b {
        b'0'..=b'9' => Some(b - b'0'),
        b'a'..=b'f' => Some(b - b'a' + 10),
        _ => None,
    }
}

fn all_hex(text: &[u8]) -> bool
    ensures { result ≡ list_all is_hex text.now }
{
    text.iter().all(|b| nibble(*b).is_some())
}

// The bytes that pairs of digits write.
fn joined(heap: Global, text: &[u8]) -> Result<Vec<u8>, Bad>
    requires { list_all is_hex text.now ≡ true }
    ensures { MatchResult result (λ v. v.items ≡ paired text.now) (λ e. e ≡ NoMemory) }
{
    let (pairs, _) = text.as_chunks::<2>();
    let mut all = Vec::with_capacity(heap, pairs.len())?;
    for [high, low] in pairs {
        all.push(16 * nibble(*high).unwrap() + nibble(*low).unwrap())?;
    }
    Ok(all)
}

pub fn byte_string(heap: Global, text: &[u8]) -> Result<Vec<u8>, Bad>
    ensures { MatchResult result (λ v. byte_string text.now ≡ Ok v.items) (λ e. (e ≡ NoMemory) ⊎ (byte_string text.now ≡ Err e)) }
{
    if is_dash(text) {
        return Ok(Vec::new(heap));
    }
    if text.is_empty() {
        return Err(Bad::MissingPart);
    }
    if !all_hex(text) {
        return Err(Bad::NotHex);
    }
    if text.len() % 2 != 0 {
        return Err(Bad::OddDigits);
    }
    joined(heap, text)
}
