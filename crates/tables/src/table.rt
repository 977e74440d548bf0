// A table's bytes as entries, one after another.
ghost use Rattle.std.specs.Prelude.{◌≡◌};
ghost use Rattle.std.specs.Iterator.{YieldsFirst, item_count};

use crate::entry::{Entry, entry_in};

// The entries of a table, 12 bytes each; bytes that are too few for one are left out. An iterator of its own: `as_chunks` with
// a `map` gives the same, but each clause would speak of a chain of adapters in place of the entries left: no plainer.
#[derive(Clone, Copy)]
pub(crate) struct TableEntries<'a> {
    bytes: &'a [u8],
}

impl<'a> TableEntries<'a> {
    pub(crate) fn new(bytes: &'a [u8]) -> TableEntries<'a>
        ensures { result.bytes.now ≡ bytes.now }
    {
        TableEntries { bytes }
    }
}

impl Iterator for TableEntries<'_> {
    ghost use Rattle.tables.specs.Tables.{entries_left};

    type Item = Entry;

    ghost next_gives = { YieldsFirst entries_left };

    ghost remaining = { item_count entries_left };

    fn next(&mut self) -> Option<Entry> {
        if self.bytes.len() < 12 {
            return None;
        }
        let entry = entry_in(self.bytes, 0);
        self.bytes = &self.bytes[12..];
        Some(entry)
    }
}
