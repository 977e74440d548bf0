// Little-endian words in a byte slice, one set of functions for every width.
ghost use Rattle.std.specs.Prelude.{◌≡◌, ℕ, ◌+◌, ◌^◌, ◌<◌, ◌≤◌, T, length, is_ok, Some, nat_le};
ghost use Rattle.std.proofs.Common.{rules};
ghost use Rattle.std.specs.Option.{option_map};
ghost use Rattle.layout.specs.Words.{le_value, le_bytes, le_at, word_at, with_word};

// A number that `N` bytes spell, the lowest first.
pub trait Word<const N: usize>: Copy {
    ghost value: { Self → ℕ };

    fn of_le_bytes(bytes: [u8; N]) -> Self
        ensures { value result ≡ le_value bytes.entry };

    fn le_bytes(self) -> [u8; N]
        ensures bytes { result ≡ le_bytes N (value self) }
        ensures bound { value self < 256 ^ N };

    // An array of so many bytes can be lent as a slice.
    ghost short: { N < 2 ^ 63 };
}

impl Word<2> for u16 {
    ghost value = { λ x. x };

    fn of_le_bytes(bytes: [u8; 2]) -> u16
        ensures { result ≡ le_value bytes }
    {
        u16::from_le_bytes(bytes)
    }

    fn le_bytes(self) -> [u8; 2]
        ensures bytes { result ≡ le_bytes 2 self }
        ensures bound { self < 256 ^ 2 }
    {
        u16::to_le_bytes(self)
    }

    ghost short = { Prim.search rules };
}

impl Word<4> for u32 {
    ghost value = { λ x. x };

    fn of_le_bytes(bytes: [u8; 4]) -> u32
        ensures { result ≡ le_value bytes }
    {
        u32::from_le_bytes(bytes)
    }

    fn le_bytes(self) -> [u8; 4]
        ensures bytes { result ≡ le_bytes 4 self }
        ensures bound { self < 256 ^ 4 }
    {
        u32::to_le_bytes(self)
    }

    ghost short = { Prim.search rules };
}

impl Word<8> for u64 {
    ghost value = { λ x. x };

    fn of_le_bytes(bytes: [u8; 8]) -> u64
        ensures { result ≡ le_value bytes }
    {
        u64::from_le_bytes(bytes)
    }

    fn le_bytes(self) -> [u8; 8]
        ensures bytes { result ≡ le_bytes 8 self }
        ensures bound { self < 256 ^ 8 }
    {
        u64::to_le_bytes(self)
    }

    ghost short = { Prim.search rules };
}

impl Word<16> for u128 {
    ghost value = { λ x. x };

    fn of_le_bytes(bytes: [u8; 16]) -> u128
        ensures { result ≡ le_value bytes }
    {
        u128::from_le_bytes(bytes)
    }

    fn le_bytes(self) -> [u8; 16]
        ensures bytes { result ≡ le_bytes 16 self }
        ensures bound { self < 256 ^ 16 }
    {
        u128::to_le_bytes(self)
    }

    ghost short = { Prim.search rules };
}

// The word at `at`, which lies in the slice.
pub fn le_at<const N: usize, W: Word<N>>(bytes: &[u8], at: usize) -> W
    requires { at + N ≤ length bytes.now }
    ensures { W.value result ≡ le_at N bytes.now at }
{
    let mut word = [0; N];
    word.copy_from_slice(&bytes[at..at + N]);
    W::of_le_bytes(word)
}

// The word at `at`, or none where it passes the end.
pub fn word_at<const N: usize, W: Word<N>>(bytes: &[u8], at: usize) -> Option<W>
    ensures { option_map W.value result ≡ word_at N bytes.now at }
{
    let word = bytes.get(at..)?.first_chunk()?;
    Some(W::of_le_bytes(*word))
}

// A word that would pass the end of its slice.
#[derive(Clone, Copy, PartialEq, Eq, Debug)]
pub struct PastEnd;

// Puts a word at `at`; where it would pass the end, changes nothing.
#[tactic(auto, using(crate::proofs::Words::word_there))]
pub fn write_word<const N: usize, W: Word<N>>(
    bytes: &mut [u8],
    at: usize,
    word: W,
) -> Result<(), PastEnd>
    ensures answer { is_ok result ≡ nat_le (at + N) (length bytes.old) }
    ensures after { bytes.new ≡ with_word N bytes.old at (W.value word) }
    ensures back { T (is_ok result) → word_at N bytes.new at ≡ Some (W.value word) }
{
    // By a split: after a slice's `get_mut` a proof knows its length, and not its bytes.
    let (_, rest) = bytes.split_at_mut_checked(at).ok_or(PastEnd)?;
    let place = rest.first_chunk_mut().ok_or(PastEnd)?;
    *place = word.le_bytes();
    Ok(())
}
