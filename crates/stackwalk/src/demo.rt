// What the program does with no arguments.
use crate::compiled::show_plan;
use crate::memories::show_memories;
use crate::tables_of::show_table;
use layout::address::Rva;
use tables::area::InfoArea;

// Three functions: one with a frame register, one with a handler, and a part of it that goes on with it.
const TABLE: [u8; 36] = [
    0x00, 0x10, 0, 0, 0x1c, 0x10, 0, 0, 0x00, 0x20, 0, 0, // 0x1000 to 0x101c, info at 0x2000
    0x20, 0x10, 0, 0, 0x40, 0x10, 0, 0, 0x18, 0x20, 0, 0, // 0x1020 to 0x1040, info at 0x2018
    0x40, 0x10, 0, 0, 0x50, 0x10, 0, 0, 0x28, 0x20, 0, 0, // 0x1040 to 0x1050, info at 0x2028
];

const INFOS: [u8; 60] = [
    0x01, 0x10, 0x06, 0x25, 0x10, 0x64, 0x05, 0, 0x0b, 0x03, 0x06, 0x62, 0x02, 0x30, 0x01, 0x50, // 0x2000
    0, 0, 0, 0, 0, 0, 0, 0, // unused
    0x09, 0x04, 0x01, 0x00, 0x04, 0x42, 0, 0, 0x50, 0x10, 0, 0, 0x2a, 0, 0, 0, // 0x2018
    0x21, 0x05, 0x02, 0x00, 0x05, 0x74, 0x06, 0, 0x20, 0x10, 0, 0, 0x40, 0x10, 0, 0, 0x18, 0x20, 0,
    0, // 0x2028
];

// A description of two functions.
const PLAN: &str = "
# A frame register, and a save.
function noon
    push RBP
    push RBX
    allocate 56
    frame RBP 32
    save RSI 40
    nop

# Calls, so RSP is aligned and 32 bytes are below the save.
function day
    push R12
    allocate 48
    save RDI 40
    set R11 -5
    call noon
";

pub fn show_all(rt: &HostRuntime) -> anyhow::Result<()> {
    show_memories(rt)?;
    let area = InfoArea {
        bytes: &INFOS,
        start: Rva(0x2000),
    };
    show_table(rt, &TABLE, area, 0x203c)?;
    println!(rt; "A description of two functions, compiled:")?;
    show_plan(rt, PLAN)
}
