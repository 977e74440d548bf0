// Loading a table from bytes or files, and reporting it.
use crate::refusal::show_refusal;
use crate::report::show_entries;
use anyhow::{Context, anyhow};
use layout::address::{Address, Rva};
use std::fs;
use tables::area::InfoArea;
use tables::entry::Entry;
use tables::load::load_table;
use tables::module::Extent;
use tables::refusal::TableRefusal;

// A number in decimal, or in hexadecimal after `0x`.
fn number(rt: &HostRuntime, text: &str) -> anyhow::Result<u64> {
    let read = match text.strip_prefix("0x") {
        Some(digits) => u64::from_str_radix(digits, 16),
        None => text.parse::<u64>(),
    };
    read.ok()
        .with_context(|| format!(in rt.alloc(); "not a number: {text}"))
}

fn bytes_of(rt: &HostRuntime, path: &str) -> anyhow::Result<Vec<u8>> {
    let read = fs::read(rt, path);
    read.ok()
        .with_context(|| format!(in rt.alloc(); "cannot read the file {path}"))
}

// The text of a file.
pub fn text_of(rt: &HostRuntime, path: &str) -> anyhow::Result<String> {
    let read = fs::read_to_string(rt, path);
    read.ok().with_context(|| format!(in rt.alloc(); "cannot read the file {path} as text"))
}

// The entries of a table.
pub fn entries_of(
    rt: &HostRuntime,
    table: &[u8],
    extent: Extent,
) -> anyhow::Result<Result<Vec<Entry>, TableRefusal>> {
    let none = Entry {
        begin: Rva(0),
        end: Rva(0),
        info: Rva(0),
    };
    let mut records = vec![in rt.alloc(); none; table.len() / 12]?;
    Ok(load_table(table, extent, records.as_mut_slice()).map(|_| records))
}

// Loads the table, and reports its entries with their infos.
pub fn show_table(rt: &HostRuntime, table: &[u8], area: InfoArea, size: u64) -> anyhow::Result<()> {
    let extent = Extent {
        base: Address(0),
        size,
    };
    match entries_of(rt, table, extent)? {
        Ok(entries) => Ok(show_entries(rt, entries.as_slice(), area)?),
        Err(e) => Ok(show_refusal(rt, "table", &e)?),
    }
}

// The same from files.
pub fn show_files(
    rt: &HostRuntime,
    table: &str,
    infos: &str,
    start: &str,
    size: &str,
) -> anyhow::Result<()> {
    let Ok(start) = u32::try_from(number(rt, start)?) else {
        return Err(anyhow!("START has more than 32 bits"));
    };
    let size = number(rt, size)?;
    let table = bytes_of(rt, table)?;
    let area = bytes_of(rt, infos)?;
    let area = InfoArea {
        bytes: area.as_slice(),
        start: Rva(start),
    };
    show_table(rt, table.as_slice(), area, size)
}
