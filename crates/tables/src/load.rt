// Loading a table: its bytes into the caller's entry records.
ghost use Rattle.std.specs.Prelude.{◌≡◌, ◌/◌, ◌≤◌, ◌++◌, length, drop};
ghost use Rattle.std.specs.Result.{result_map_both};
ghost use Rattle.tables.specs.Entries.{entries_of};
ghost use Rattle.tables.specs.Modules.{loading, loaded};
ghost use Rattle.tables.specs.Refusals.{table_number};

use crate::entry::{Entry, are_good};
use crate::module::{Extent, MAX_ENTRIES};
use crate::refusal::TableRefusal;
use crate::table::TableEntries;

// How many entries the table has, if it may be loaded.
fn check_table(bytes: &[u8], extent: Extent, room: usize) -> Result<usize, TableRefusal>
    ensures { result_map_both (λ n. n) table_number result ≡ loading bytes.now extent.base.0 extent.size room }
{
    let n = bytes.len() / 12;
    if bytes.len() % 12 != 0
        || n > MAX_ENTRIES
        || !are_good(TableEntries::new(bytes), extent.size)
    {
        return Err(TableRefusal::BadTable);
    }
    extent.check()?;
    if n > room {
        return Err(TableRefusal::TooFewRecords);
    }
    Ok(n)
}

// Writes the entries of a table over the first records.
fn write_entries(bytes: &[u8], records: &mut [Entry])
    requires { length bytes.now / 12 ≤ length records.old }
    ensures { records.new ≡ entries_of bytes.now (length bytes.now / 12) ++ drop (length bytes.now / 12) records.old }
{
    // After `iter_mut().zip(..)` a proof knows nothing of the records.
    for (k, entry) in TableEntries::new(bytes).enumerate() {
        records[k] = entry;
    }
}

// Fills the caller's records with the table's entries, in table order, and answers how many there are.
// Refused with 35, 36 or 22, in that order, it changes no record; the records past the entries stay.
pub fn load_table(
    bytes: &[u8],
    extent: Extent,
    records: &mut [Entry],
) -> Result<usize, TableRefusal>
    ensures answer { result_map_both (λ n. n) table_number result ≡ loading bytes.now extent.base.0 extent.size (length records.old) }
    ensures after { records.new ≡ loaded bytes.now records.old result }
{
    let n = check_table(bytes, extent, records.len())?;
    write_entries(bytes, records);
    Ok(n)
}
