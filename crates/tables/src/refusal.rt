// Why a table or a module is refused.
ghost use Rattle.tables.specs.Refusals.{table_number};

use layout::refusal::Numbered;

#[derive(Clone, Copy, PartialEq, Eq, Debug)]
pub enum TableRefusal {
    // Not 12 bytes for each entry, over 65,536 entries, or an entry that is empty, out of order,
    // overlapping or past the module's size.
    BadTable = 35,
    // The size is 0, or the module passes the last address.
    BadModule = 36,
    // Fewer records than entries.
    TooFewRecords = 22,
}

impl Numbered for TableRefusal {
    ghost number = { table_number };

    fn number(&self) -> u16 {
        *self as u16
    }
}
