// A sparse dump with a hole, a limit over it, and what reading through both answers.
use crate::refusal::show_refusal;
use layout::address::Address;
use layout::refusal::Numbered;
use limit::layer::Limit;
use memory::item::{ItemFault, read_item};
use memory::range::DumpRange;
use memory::reading::Memory;
use memory::sparse::SparseDump;
use std::io;

// The words of a stopped thread's stack that the dump kept: RBX, RBP, a return address, and one word further up.
const STACK: [u8; 32] = [
    0x44, 0x33, 0x22, 0x11, 0, 0, 0, 0, 0xe0, 0x0f, 0x10, 0, 0, 0, 0, 0, 0x34, 0x12, 0, 0x40, 1, 0,
    0, 0, 0x2a, 0, 0, 0, 0, 0, 0, 0,
];

const RANGES: [DumpRange; 2] = [
    DumpRange {
        start: Address(0x10_0ef8),
        length: 24,
        place: 0,
    },
    DumpRange {
        start: Address(0x10_0f18),
        length: 8,
        place: 24,
    },
];

pub fn show_memories(rt: &HostRuntime) -> io::Result<()> {
    println!(rt; "A sparse dump of a stack, with a hole:")?;
    show_ranges(rt)?;
    let mut dump = match SparseDump::new(&RANGES, &STACK) {
        Ok(dump) => dump,
        Err(e) => return show_refusal(rt, "dump", &e),
    };
    println!(rt; "Words read from it:")?;
    show_words(rt, &mut dump)?;
    println!(rt; "A limit over it that admits 0x100f00 to 0x100f17:")?;
    let mut limit = Limit::new(dump);
    if let Err(e) = limit.admit(Address(0x10_0f00), Address(0x10_0f17)) {
        return show_refusal(rt, "window", &e);
    }
    show_words(rt, &mut limit)?;
    show_admission(rt, &mut limit, Address(0x10_0f10), Address(0x10_0f1f))?;
    show_admission(rt, &mut limit, Address(0x10_0f18), Address(0x10_0f1f))?;
    show_word(rt, &mut limit, Address(0x10_0f18))
}

fn show_ranges(rt: &impl Print) -> io::Result<()> {
    for range in &RANGES {
        let start = range.start.0;
        let length = range.length;
        println!(rt; "  {length:>2} bytes from {start:#x}")?;
    }
    Ok(())
}

// The five words from the first range's start on.
fn show_words<M: Memory>(rt: &impl Print, m: &mut M) -> io::Result<()> {
    for i in 0u64..5 {
        show_word(rt, m, Address(0x10_0ef8 + 8 * i))?;
    }
    Ok(())
}

// One word, or the byte that was lacking. Written line by line, as in report.rt.
fn show_word<M: Memory>(rt: &impl Print, m: &mut M, at: Address) -> io::Result<()> {
    let start = at.0;
    match read_item::<8, u64, M>(m, at) {
        Ok(word) => println!(rt; "  {start:#x}: {word:#018x}"),
        Err(ItemFault::Unread(lacking)) => {
            let number = lacking.number();
            let hole = lacking.at.0;
            println!(rt; "  {start:#x}: refused with {number}, no byte is shown at {hole:#x}")
        }
        Err(e) => {
            let number = e.number();
            println!(rt; "  {start:#x}: refused with {number}, the word passes the last address")
        }
    }
}

fn show_admission<M>(
    rt: &impl Print,
    limit: &mut Limit<M>,
    first: Address,
    last: Address,
) -> io::Result<()> {
    let low = first.0;
    let high = last.0;
    match limit.admit(first, last) {
        Ok(()) => println!(rt; "Admitting {low:#x} to {high:#x}: done"),
        Err(e) => {
            let number = e.number();
            println!(rt; "Admitting {low:#x} to {high:#x}: refused with {number}, nothing changed")
        }
    }
}
