// Compiling a description, and showing what it became: code, function table and infos.
use crate::listing::show_listing;
use crate::plan_file::PlanFile;
use crate::refusal::show_refusal;
use crate::report::show_entries;
use crate::tables_of::{entries_of, text_of};
use compile::compile::compile;
use compile::lengths::MOST;
use layout::address::{Address, Rva};
use std::io;
use tables::area::InfoArea;
use tables::entry::Entry;
use tables::module::Extent;

// What a description was compiled to.
#[derive(Clone, Copy)]
struct Compiled<'a> {
    code: &'a [u8],
    infos: &'a [u8],
    table: &'a [u8],
}

// The first bytes of a buffer.
fn front(buffer: &[u8], length: usize) -> &[u8] {
    buffer.get(..length).unwrap_or(buffer)
}

// How much there is, and from which RVA on.
fn show_sizes(rt: &impl Print, all: Compiled, entries: &[Entry], area: InfoArea) -> io::Result<()> {
    let code = all.code.len();
    let first = entries.first().map_or(0, |e| e.begin.0);
    let infos = area.bytes.len();
    let start = area.start.0;
    let table = all.table.len();
    println!(rt;
        "Compiled to {code} bytes of code from {first:#x}, {infos} bytes of infos from {start:#x}, {table} bytes of table."
    )
}

// The functions' code by name, then the function table with the infos.
fn show_compiled(rt: &HostRuntime, names: &[&str], all: Compiled) -> anyhow::Result<()> {
    let extent = Extent {
        base: Address(0),
        size: 1 << 32,
    };
    let entries = match entries_of(rt, all.table, extent)? {
        Ok(entries) => entries,
        Err(e) => return Ok(show_refusal(rt, "table", &e)?),
    };
    let entries = entries.as_slice();
    let area = InfoArea {
        bytes: all.infos,
        start: entries.first().map_or(Rva(0), |e| e.info),
    };
    show_sizes(rt, all, entries, area)?;
    show_listing(rt, names, entries, all.code)?;
    Ok(show_entries(rt, entries, area)?)
}

// Compiles the description in a text.
pub fn show_plan(rt: &HostRuntime, text: &str) -> anyhow::Result<()> {
    let file = PlanFile::read(rt.alloc(), text)?;
    let mut code = vec![in rt.alloc(); 0u8; MOST.code]?;
    let mut infos = vec![in rt.alloc(); 0u8; MOST.infos]?;
    let mut table = vec![in rt.alloc(); 0u8; MOST.table]?;
    let answer = compile(
        &file.plan(),
        code.as_mut_slice(),
        infos.as_mut_slice(),
        table.as_mut_slice(),
    );
    match answer {
        Ok(lengths) => show_compiled(
            rt,
            file.names.as_slice(),
            Compiled {
                code: front(code.as_slice(), lengths.code),
                infos: front(infos.as_slice(), lengths.infos),
                table: front(table.as_slice(), lengths.table),
            },
        ),
        Err(refusal) => Err(file.explain(refusal)),
    }
}

// The same from a file.
pub fn show_plan_file(rt: &HostRuntime, path: &str) -> anyhow::Result<()> {
    let text = text_of(rt, path)?;
    show_plan(rt, text.as_str())
}
