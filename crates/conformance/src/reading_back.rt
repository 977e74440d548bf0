// The request `readback TABLE START AREA`.
use crate::list::{push_joined, push_list};
use crate::short::rva;
use crate::stop::Stop;
use crate::tabling::loaded;
use layout::address::Address;
use plan::text::{Counts, StepRecord};
use protocol::bytes::byte_string;
use protocol::parts::Parts;
use protocol::write::push_decimal;
use readback::read::read_back;
use std::alloc::{AllocError, Global};
use tables::area::InfoArea;
use tables::entry::Entry;
use tables::module::{Extent, MAX_ENTRIES, Module};

// An info has at most 255 slots, and a step takes one or more.
const MAX_STEPS: usize = 255;

// `steps.operations`
fn push_counts(line: &mut Vec<u8>, counts: Counts) -> Result<(), AllocError> {
    push_decimal(line, u128::from(counts.steps))?;
    line.extend_from_slice(b".")?;
    push_decimal(line, u128::from(counts.operations))
}

// `kind.register.number`
fn push_step(line: &mut Vec<u8>, step: StepRecord) -> Result<(), AllocError> {
    let kind = u32::from(step.kind);
    let register = u32::from(step.register);
    push_joined(line, &[kind, register, step.number])
}

// The steps of a module's functions, as the answer lists them.
fn push_module(heap: Global, module: &Module, line: &mut Vec<u8>) -> Result<(), Stop> {
    let no_counts = Counts {
        steps: 0,
        operations: 0,
    };
    let no_step = StepRecord {
        kind: 0,
        register: 0,
        number: 0,
    };
    let most = (module.area.bytes.len() / 2).min(MAX_STEPS);
    let count = module.entries.len();
    let mut functions = vec![in heap; no_counts; count]?;
    let mut steps = vec![in heap; no_step; count.saturating_mul(most)]?;
    let lengths = read_back(module, functions.as_mut_slice(), steps.as_mut_slice())?;
    line.extend_from_slice(b"ok ")?;
    functions.truncate(lengths.functions);
    push_list(line, functions.as_slice(), |line, counts| {
        push_counts(line, *counts)
    })?;
    line.extend_from_slice(b" ")?;
    steps.truncate(lengths.steps);
    push_list(line, steps.as_slice(), |line, step| push_step(line, *step))?;
    Ok(())
}

// A module of entries whose infos lie in an area. By a function: in a literal the two lenders would have to be one.
fn module_of<'a>(extent: Extent, entries: &'a [Entry], area: InfoArea<'a>) -> Module<'a> {
    Module {
        extent,
        entries,
        area,
    }
}

pub fn read_back_request(heap: Global, mut fields: Parts, line: &mut Vec<u8>) -> Result<(), Stop> {
    let table = byte_string(heap, fields.part()?)?;
    let start = rva(fields.part()?)?;
    let bytes = byte_string(heap, fields.part()?)?;
    fields.end()?;
    // The module ends with its infos.
    let size = u64::from(start.0).saturating_add(bytes.len() as u64);
    let extent = Extent {
        base: Address(0),
        size,
    };
    let room = (table.len() / 12).min(MAX_ENTRIES);
    let entries = loaded(heap, table.as_slice(), extent, room)?;
    let area = InfoArea {
        bytes: bytes.as_slice(),
        start,
    };
    push_module(heap, &module_of(extent, entries.as_slice(), area), line)
}
