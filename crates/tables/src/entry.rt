// Entries of a function table.
ghost use Rattle.std.specs.Prelude.{◌≡◌, ◌+◌, ◌≤◌, List, length};
ghost use Rattle.std.specs.Iterator.{AlwaysYields, IsFinite};
ghost use Rattle.tables.specs.Entries.{entry_at, entry_first, entry_last, entry_good, entries_good};

use layout::address::Rva;
use layout::word::le_at;
use records::span::Span;

// A function's code, from `begin` up to `end`, which is one past it, and its unwind info.
#[derive(Clone, Copy, PartialEq, Eq, Debug)]
pub struct Entry {
    pub begin: Rva,
    pub end: Rva,
    pub info: Rva,
}

impl Span for Entry {
    type Key = Rva;

    ghost first = { entry_first };

    ghost last = { entry_last };

    fn first(&self) -> Rva {
        self.begin
    }

    fn last(&self) -> Rva {
        Rva(self.end.0.saturating_sub(1))
    }
}

// The entry in the 12 bytes from `at` on.
pub fn entry_in(bytes: &[u8], at: usize) -> Entry
    requires { at + 12 ≤ length bytes.now }
    ensures { result ≡ entry_at bytes.now at }
{
    Entry {
        begin: Rva(le_at(bytes, at)),
        end: Rva(le_at(bytes, at + 4)),
        info: Rva(le_at(bytes, at + 8)),
    }
}

// Whether the entry holds something, starts at `floor` or above, and ends within `size`.
fn is_good(entry: Entry, floor: u32, size: u64) -> bool
    ensures { result ≡ entry_good size floor entry }
{
    entry.begin.0 < entry.end.0 && floor <= entry.begin.0 && u64::from(entry.end.0) <= size
}

// Whether the entries are in ascending order without overlap inside a module of this size: each entry is held against the end
// of the one before it, and the first against 0. By a loop: `try_fold` would carry that end in an Option, no plainer.
pub(crate) fn are_good<I: Iterator<Item = Entry> + Drop>(entries: I, size: u64) -> bool
    requires can { I.can_next entries }
    requires ends { IsFinite (I.remaining entries) }
    ensures { (all : List Entry) → AlwaysYields I.next_gives (λ e. e) entries all → result ≡ entries_good size 0 all }
{
    let mut floor = 0;
    for entry in entries {
        if !is_good(entry, floor, size) {
            return false;
        }
        floor = entry.end.0;
    }
    true
}
