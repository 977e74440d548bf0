// A module: where it lies, its entries, and the area that holds its unwind infos.
ghost use Rattle.std.specs.Prelude.{◌≡◌, ◌≤◌, true, IfSome};
ghost use Rattle.std.specs.Result.{result_map_both};
ghost use Rattle.records.specs.Spans.{ascending};
ghost use Rattle.tables.specs.Entries.{entry_first, entry_last, entry_holding};
ghost use Rattle.tables.specs.Modules.{size_verdict, module_verdict};
ghost use Rattle.tables.specs.Refusals.{table_number};

use crate::area::InfoArea;
use crate::entry::{Entry, are_good};
use crate::refusal::TableRefusal;
use layout::address::{Address, Rva};
use records::span::find;

// A table has at most this many entries.
pub const MAX_ENTRIES: usize = 65536;

// Where a module lies: its first address, and how many bytes it has.
#[derive(Clone, Copy, PartialEq, Eq, Debug)]
pub struct Extent {
    pub base: Address,
    pub size: u64,
}

impl Extent {
    // Whether a module of this size fits at this base, else 36.
    pub fn check(self) -> Result<(), TableRefusal>
        ensures { result_map_both (λ x. x) table_number result ≡ size_verdict self.base.0 self.size }
    {
        if self.size == 0 || u64::MAX - self.base.0 < self.size - 1 {
            return Err(TableRefusal::BadModule);
        }
        Ok(())
    }
}

// A plain record that the caller fills.
#[derive(Clone, Copy)]
pub struct Module<'a> {
    pub extent: Extent,
    pub entries: &'a [Entry],
    pub area: InfoArea<'a>,
}

impl Module<'_> {
    // 35 where the entries are no table, and then 36 where the module does not fit at its base.
    pub fn check(&self) -> Result<(), TableRefusal>
        ensures { result_map_both (λ x. x) table_number result ≡ module_verdict self.now.extent.base.0 self.now.extent.size self.now.entries.now }
    {
        if self.entries.len() > MAX_ENTRIES
            || !are_good(self.entries.iter().copied(), self.extent.size)
        {
            return Err(TableRefusal::BadTable);
        }
        self.extent.check()
    }

    // The entry that holds an RVA, where the entries are in order; in any other module, one that holds it or none.
    pub fn entry_at(&self, rva: Rva) -> Option<Entry>
        ensures finds { ascending entry_first entry_last self.now.entries.now ≡ true → result ≡ entry_holding rva.0 self.now.entries.now }
        ensures inside { IfSome result (λ e. (entry_first e ≤ rva.0) × (rva.0 ≤ entry_last e)) }
    {
        find(self.entries, rva).map(|i| self.entries[i])
    }
}
