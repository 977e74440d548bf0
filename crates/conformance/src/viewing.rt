// The request `info AREA START RVA RECORDS`.
use crate::list::{push_joined, push_list};
use crate::short::{count, rva};
use crate::stop::Stop;
use crate::tabling::push_entry;
use infos::code::{Code, Operation};
use infos::info::{Info, Tail};
use infos::listing::list_codes;
use infos::reading::read_info;
use protocol::bytes::byte_string;
use protocol::parts::Parts;
use protocol::write::{push_bytes, push_decimal, push_hex};
use std::alloc::{AllocError, Global};
use tables::area::InfoArea;

// An info has fewer slots, and so fewer codes.
const MAX_CODES: usize = 256;

fn push_tail(line: &mut Vec<u8>, tail: Tail) -> Result<(), AllocError> {
    match tail {
        Tail::None => line.extend_from_slice(b"none"),
        Tail::Handler { rva, data } => {
            line.extend_from_slice(b"handler.")?;
            push_hex(line, u128::from(rva.0))?;
            line.extend_from_slice(b".")?;
            push_bytes(line, data)
        }
        Tail::Chained(entry) => {
            line.extend_from_slice(b"chained.")?;
            push_entry(line, entry)
        }
    }
}

fn push_header(line: &mut Vec<u8>, info: &Info) -> Result<(), AllocError> {
    push_hex(line, u128::from(info.flags))?;
    line.extend_from_slice(b" ")?;
    push_hex(line, u128::from(info.prologue))?;
    line.extend_from_slice(b" ")?;
    push_hex(line, u128::from(info.frame_register))?;
    line.extend_from_slice(b" ")?;
    push_hex(line, u128::from(info.frame_offset))?;
    line.extend_from_slice(b" ")?;
    push_hex(line, info.place as u128)?;
    line.extend_from_slice(b" ")?;
    push_bytes(line, info.slots)
}

// The size or the byte offset, and 0 where there is none, as the line has it.
fn value_of(operation: Operation) -> u32 {
    match operation {
        Operation::Push(_) | Operation::SetFrame => 0,
        Operation::Allocate(size) => size,
        Operation::Save { offset, .. } | Operation::SaveXmm { offset, .. } => offset,
    }
}

// `slot.offset.op.info.value`; operation and info are the halves of the code's second byte. Its place is not proved to lie in
// the slots, so a byte that is not there is written as 0, which does not come up.
fn push_code(line: &mut Vec<u8>, slots: &[u8], code: Code) -> Result<(), AllocError> {
    let at = code.slot.saturating_mul(2).saturating_add(1);
    let second = slots.get(at).copied().unwrap_or(0);
    let op = u32::from(second % 16);
    let info = u32::from(second / 16);
    push_decimal(line, code.slot as u128)?;
    line.extend_from_slice(b".")?;
    let offset = u32::from(code.offset);
    push_joined(line, &[offset, op, info, value_of(code.operation)])
}

pub fn info(heap: Global, mut fields: Parts, line: &mut Vec<u8>) -> Result<(), Stop> {
    let bytes = byte_string(heap, fields.part()?)?;
    let start = rva(fields.part()?)?;
    let area = InfoArea {
        bytes: bytes.as_slice(),
        start,
    };
    let at = rva(fields.part()?)?;
    let room = count(fields.part()?, MAX_CODES)?;
    fields.end()?;
    let none = Code {
        slot: 0,
        offset: 0,
        operation: Operation::SetFrame,
    };
    let mut records = vec![in heap; none; room]?;
    let n = list_codes(area, at, records.as_mut_slice())?;
    records.truncate(n);
    let view = read_info(area, at)?;
    line.extend_from_slice(b"ok ")?;
    push_header(line, &view)?;
    line.extend_from_slice(b" ")?;
    push_tail(line, view.tail)?;
    line.extend_from_slice(b" ")?;
    push_list(
        line,
        records.as_slice(),
        |line, code| push_code(line, view.slots, *code),
    )?;
    Ok(())
}
