// A flat image: a run of bytes from a start address.
ghost use Rattle.std.specs.Prelude.{◌≡◌, Ok, Err, MatchResult};
ghost use Rattle.memory.specs.Refusals.{source_number};
ghost use Rattle.memory.specs.Sources.{flat_verdict, flat_map};

use crate::range::SourceRefusal;
use crate::reading::{Lacking, Memory};
use layout::address::Address;

#[derive(Drop)]
pub struct FlatImage<'a> {
    start: Address,
    bytes: &'a [u8],
}

impl<'a> FlatImage<'a> {
    // Shows `bytes` from `start` on. No bytes are refused with 20, and an end past the last address with 21.
    pub fn new(start: Address, bytes: &'a [u8]) -> Result<FlatImage<'a>, SourceRefusal>
        ensures { MatchResult result (λ f. (flat_verdict start.0 bytes.now ≡ Ok tt) × (f.start ≡ start) × (f.bytes.now ≡ bytes.now)) (λ e. flat_verdict start.0 bytes.now ≡ Err (source_number e)) }
    {
        if bytes.is_empty() {
            return Err(SourceRefusal::OutsideRun);
        }
        if u64::MAX - start.0 < bytes.len() as u64 - 1 {
            return Err(SourceRefusal::Disorder);
        }
        Ok(FlatImage { start, bytes })
    }
}

impl<'a> Memory for FlatImage<'a> {
    ghost shows = { λ s. flat_map s.start.0 s.bytes.now };

    fn read(&mut self, at: Address) -> Result<u8, Lacking> {
        let i = at.0.checked_sub(self.start.0).ok_or(Lacking { at })?;
        self.bytes.get(i as usize).copied().ok_or(Lacking { at })
    }
}
