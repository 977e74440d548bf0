// The request `table BYTES BASE SIZE RECORDS`.
use crate::list::{push_joined, push_list};
use crate::short::count;
use crate::stop::Stop;
use layout::address::{Address, Rva};
use protocol::bytes::byte_string;
use protocol::number::number;
use protocol::parts::Parts;
use std::alloc::{AllocError, Global};
use tables::entry::Entry;
use tables::load::load_table;
use tables::module::{Extent, MAX_ENTRIES};

// `begin.end.info`
pub fn push_entry(line: &mut Vec<u8>, entry: Entry) -> Result<(), AllocError> {
    push_joined(line, &[entry.begin.0, entry.end.0, entry.info.0])
}

// The entries of a table in a module that lies here, if there are no more than `room`.
pub fn loaded(heap: Global, table: &[u8], extent: Extent, room: usize) -> Result<Vec<Entry>, Stop> {
    let none = Entry {
        begin: Rva(0),
        end: Rva(0),
        info: Rva(0),
    };
    let mut entries = vec![in heap; none; room]?;
    let n = load_table(table, extent, entries.as_mut_slice())?;
    entries.truncate(n);
    Ok(entries)
}

pub fn table(heap: Global, mut fields: Parts, line: &mut Vec<u8>) -> Result<(), Stop> {
    let bytes = byte_string(heap, fields.part()?)?;
    let base = Address(number(fields.part()?)?);
    let size = number(fields.part()?)?;
    let extent = Extent { base, size };
    // More records than a table can have entries make no difference.
    let room = count(fields.part()?, MAX_ENTRIES)?;
    fields.end()?;
    let entries = loaded(heap, bytes.as_slice(), extent, room)?;
    line.extend_from_slice(b"ok ")?;
    push_list(
        line,
        entries.as_slice(),
        |line, entry| push_entry(line, *entry),
    )?;
    Ok(())
}
