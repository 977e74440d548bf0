// Numbers that stand for an offset or a count.
use layout::address::Rva;
use protocol::bad::Bad;
use protocol::number::number;

// A number of up to 32 bits.
pub fn rva(text: &[u8]) -> Result<Rva, Bad> {
    Ok(Rva(number(text)?))
}

// A count, or `most` where it is larger.
pub fn count(text: &[u8], most: usize) -> Result<usize, Bad> {
    let n: u64 = number(text)?;
    Ok(n.min(most as u64) as usize)
}
