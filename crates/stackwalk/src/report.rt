// A function table for people: entries, prologues, codes in words, tails. Written line by line: the types are other crates',
// and a struct around each for an impl of Display is no plainer.
use crate::names::integer_name;
use infos::code::{Code, Operation};
use infos::info::{Info, Tail};
use infos::reading::read_info;
use infos::refusal::InfoRefusal;
use layout::address::Rva;
use layout::refusal::Numbered;
use std::io;
use tables::area::InfoArea;
use tables::entry::Entry;

fn show_code(rt: &impl Print, code: Code) -> io::Result<()> {
    let end = code.offset;
    match code.operation {
        Operation::Push(register) => {
            let name = integer_name(register);
            println!(rt; "    {end:>3}: push {name}")
        }
        Operation::Allocate(size) => println!(rt; "    {end:>3}: allocate {size} bytes"),
        Operation::SetFrame => println!(rt; "    {end:>3}: set frame"),
        Operation::Save { register, offset } => {
            let name = integer_name(register);
            println!(rt; "    {end:>3}: save {name} at {offset}")
        }
        Operation::SaveXmm { register, offset } => println!(rt;
            "    {end:>3}: save XMM{register} at {offset}"
        ),
    }
}

fn show_header(rt: &impl Print, info: &Info) -> io::Result<()> {
    let prologue = info.prologue;
    let frame_offset = info.frame_offset;
    if info.frame_register == 0 {
        return println!(rt; "    prologue of {prologue} bytes, no frame register");
    }
    let name = integer_name(info.frame_register);
    println!(rt; "    prologue of {prologue} bytes, frame register {name} at {frame_offset}")
}

fn show_tail(rt: &impl Print, tail: Tail) -> io::Result<()> {
    match tail {
        Tail::None => Ok(()),
        Tail::Handler { rva, data } => {
            let at = rva.0;
            let count = data.len();
            println!(rt; "    handler at {at:#x}, {count} bytes of data up to the end of the infos")
        }
        Tail::Chained(entry) => {
            let begin = entry.begin.0;
            let end = entry.end.0;
            let info = entry.info.0;
            println!(rt; "    goes on with {begin:#x} to {end:#x}, info at {info:#x}")
        }
    }
}

fn show_info_refusal(rt: &impl Print, refusal: InfoRefusal) -> io::Result<()> {
    let number = refusal.number();
    match refusal.slot {
        None => println!(rt; "    info refused with {number}"),
        Some(slot) => println!(rt; "    info refused with {number} at slot {slot}"),
    }
}

// The codes of an info that was read whole. So none of them is refused, which is not proved here; one that were would be the last.
fn show_codes(rt: &impl Print, info: &Info) -> io::Result<()> {
    for code in info.codes() {
        let Ok(code) = code else {
            break;
        };
        show_code(rt, code)?;
    }
    Ok(())
}

// One entry with its info.
fn show_entry(rt: &impl Print, entry: Entry, area: InfoArea) -> io::Result<()> {
    let begin = entry.begin.0;
    let end = entry.end.0;
    let at = entry.info.0;
    println!(rt; "  {begin:#x} to {end:#x}, info at {at:#x}")?;
    match read_info(area, entry.info) {
        Ok(info) => {
            show_header(rt, &info)?;
            show_codes(rt, &info)?;
            show_tail(rt, info.tail)
        }
        Err(e) => show_info_refusal(rt, e),
    }
}

// All entries, each with its info.
pub fn show_entries(rt: &impl Print, entries: &[Entry], area: InfoArea) -> io::Result<()> {
    let count = entries.len();
    println!(rt; "Function table of {count} entries:")?;
    for entry in entries {
        show_entry(rt, *entry, area)?;
    }
    Ok(())
}
