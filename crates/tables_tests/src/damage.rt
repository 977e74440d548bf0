// Every byte of an info changed in turn: another reading or a refusal, never worse.
use infos::code::{Code, Operation};
use infos::listing::list_codes;
use layout::address::Rva;
use layout::refusal::Numbered;
use tables::area::InfoArea;

// Push 5, push 3, allocate 56, set-frame 5 at 32, save 6 at 40, and a chained entry.
const INFO: [u8; 28] = [
    0x21, 0x10, 0x06, 0x25, 0x10, 0x64, 0x05, 0, 0x0b, 0x03, 0x06, 0x62, 0x02, 0x30, 0x01, 0x50, 0,
    0x10, 0, 0, 0x1c, 0x10, 0, 0, 0, 0x20, 0, 0,
];

// Reads the info with one byte in place of another; no more codes than slots, or a number of the list.
fn is_sound(at: usize, byte: u8) -> bool {
    let mut bytes = INFO;
    if let Some(changed) = bytes.get_mut(at) {
        *changed = byte;
    }
    let area = InfoArea {
        bytes: &bytes,
        start: Rva(0),
    };
    let none = Code {
        slot: 0,
        offset: 0,
        operation: Operation::SetFrame,
    };
    let mut codes = [none; 255];
    match list_codes(area, Rva(0), &mut codes) {
        Ok(n) => n <= 6,
        Err(e) => (40..=45).contains(&e.number()),
    }
}

#[test]
fn each_byte_changed_in_turn(rt: HostRuntime) {
    for at in 0..28 {
        for byte in 0u8..=255 {
            assert!(rt; is_sound(at, byte));
        }
    }
}
