// Ranges of a sparse dump, and their checks.
ghost use Rattle.std.specs.Prelude.{◌≡◌, ◌-◌};
ghost use Rattle.std.specs.Result.{result_map_both};
ghost use Rattle.std.specs.List.{list_all};
ghost use Rattle.memory.specs.Refusals.{source_number};
ghost use Rattle.memory.specs.Sources.{within, reaches, range_last, source_verdict};

use layout::address::Address;
use layout::refusal::Numbered;
use records::span::{Span, ascends};

// `length` bytes from the address `start` on, which stand at `place` in the run.
#[derive(Clone, Copy)]
pub struct DumpRange {
    pub start: Address,
    pub length: u64,
    pub place: u64,
}

// Why ranges make no dump, or bytes no image; each case is its number.
#[derive(Clone, Copy, PartialEq, Eq, Debug)]
pub enum SourceRefusal {
    // A range without bytes, or with bytes outside the run.
    OutsideRun = 20,
    // Ranges out of order, overlapping, or past the last address.
    Disorder = 21,
}

impl Numbered for SourceRefusal {
    ghost number = { source_number };

    fn number(&self) -> u16 {
        *self as u16
    }
}

impl Span for DumpRange {
    type Key = Address;

    ghost first = { λ r. r.start.0 };

    ghost last = { range_last };

    fn first(&self) -> Address {
        self.start
    }

    fn last(&self) -> Address {
        Address(self.start.0.saturating_add(self.length.saturating_sub(1)))
    }
}

impl DumpRange {
    // Whether the range has bytes, and all lie in a run of `size`.
    fn is_within(self, size: u64) -> bool
        ensures { result ≡ within size self }
    {
        0 < self.length && self.length <= size && self.place <= size - self.length
    }

    // Whether the range ends at the last address or before.
    fn does_reach(self) -> bool
        ensures { result ≡ reaches self }
    {
        self.length == 0 || self.length - 1 <= u64::MAX - self.start.0
    }
}

fn all_within(ranges: &[DumpRange], size: u64) -> bool
    ensures { result ≡ list_all (within size) ranges.now }
{
    ranges.iter().all(|range| range.is_within(size))
}

fn all_reach(ranges: &[DumpRange]) -> bool
    ensures { result ≡ list_all reaches ranges.now }
{
    ranges.iter().all(|range| range.does_reach())
}

// Whether the ranges make a dump over a run of `size` bytes: first 20 for every range, then 21.
pub fn check_ranges(ranges: &[DumpRange], size: u64) -> Result<(), SourceRefusal>
    ensures { result_map_both (λ x. x) source_number result ≡ source_verdict ranges.now size }
{
    if !all_within(ranges, size) {
        return Err(SourceRefusal::OutsideRun);
    }
    if !all_reach(ranges) || !ascends(ranges) {
        return Err(SourceRefusal::Disorder);
    }
    Ok(())
}
