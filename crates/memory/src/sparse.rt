// A sparse dump: ascending ranges, each with its place in one run of bytes.
ghost use Rattle.std.specs.Prelude.{◌≡◌, true, [], length, is_ok, if◌then◌else◌, Ok, Err, MatchResult};
ghost use Rattle.std.specs.Result.{result_map_both};
ghost use Rattle.memory.specs.Refusals.{source_number};
ghost use Rattle.memory.specs.Sources.{source_verdict, sparse_map};

use crate::range::{DumpRange, SourceRefusal, check_ranges};
use crate::reading::{Lacking, Memory};
use layout::address::Address;
use records::span::find;

#[derive(Drop)]
pub struct SparseDump<'a> {
    ranges: &'a [DumpRange],
    bytes: &'a [u8],
    ghost ok: { is_ok (source_verdict ranges.now (length bytes.now)) ≡ true },
}

impl<'a> SparseDump<'a> {
    // A dump that shows nothing.
    pub fn empty() -> SparseDump<'a>
        ensures { result.ranges.now ≡ [] }
    {
        SparseDump {
            ranges: &[],
            bytes: &[],
        }
    }

    // Shows `ranges` over the run `bytes`. They are refused with 20 or 21.
    pub fn new(ranges: &'a [DumpRange], bytes: &'a [u8]) -> Result<SparseDump<'a>, SourceRefusal>
        ensures { MatchResult result (λ d. (source_verdict ranges.now (length bytes.now) ≡ Ok tt) × (d.ranges.now ≡ ranges.now) × (d.bytes.now ≡ bytes.now)) (λ e. source_verdict ranges.now (length bytes.now) ≡ Err (source_number e)) }
    {
        check_ranges(ranges, bytes.len() as u64)?;
        Ok(SparseDump { ranges, bytes })
    }

    // Shows the ranges in place of what it showed; refused, it shows what it showed.
    pub fn load(&mut self, ranges: &'a [DumpRange], bytes: &'a [u8]) -> Result<(), SourceRefusal>
        ensures answer { result_map_both (λ x. x) source_number result ≡ source_verdict ranges.now (length bytes.now) }
        ensures ranges { self.new.ranges.now ≡ (if is_ok result then ranges.now else self.old.ranges.now) }
        ensures bytes { self.new.bytes.now ≡ (if is_ok result then bytes.now else self.old.bytes.now) }
    {
        *self = SparseDump::new(ranges, bytes)?;
        Ok(())
    }
}

impl<'a> Memory for SparseDump<'a> {
    ghost shows = { λ s. sparse_map s.ranges.now s.bytes.now };

    fn read(&mut self, at: Address) -> Result<u8, Lacking> {
        let Some(i) = find(self.ranges, at) else {
            return Err(Lacking { at });
        };
        let range = self.ranges[i];
        let far = at.0 - range.start.0;
        Ok(self.bytes[(range.place + far) as usize])
    }
}
