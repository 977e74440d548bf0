// Tables loaded in place, entries found, and the info of a function with every kind of integer step.
use infos::code::{Code, Operation};
use infos::info::Tail;
use infos::listing::list_codes;
use infos::reading::read_info;
use layout::address::{Address, Rva};
use std::test::Fail;
use tables::area::InfoArea;
use tables::entry::Entry;
use tables::load::load_table;
use tables::module::{Extent, Module};
use tables::refusal::TableRefusal;

// Entries 0x1000 to 0x1010 and 0x1010 to 0x1020, and after a gap 0x1030 to 0x1031.
const TABLE: [u8; 36] = [
    0x00, 0x10, 0, 0, 0x10, 0x10, 0, 0, 0x00, 0x20, 0, 0, 0x10, 0x10, 0, 0, 0x20, 0x10, 0, 0, 0x04,
    0x20, 0, 0, 0x30, 0x10, 0, 0, 0x31, 0x10, 0, 0, 0x08, 0x20, 0, 0,
];

// Push 5, push 3, allocate 56, set-frame 5 at 32, save 6 at 40.
const INFO: [u8; 16] = [
    0x01, 0x10, 0x06, 0x25, 0x10, 0x64, 0x05, 0, 0x0b, 0x03, 0x06, 0x62, 0x02, 0x30, 0x01, 0x50,
];

fn entry(begin: u32, end: u32, info: u32) -> Entry {
    Entry {
        begin: Rva(begin),
        end: Rva(end),
        info: Rva(info),
    }
}

// A module of this size at this base.
fn extent(base: u64, size: u64) -> Extent {
    Extent {
        base: Address(base),
        size,
    }
}

#[test]
fn a_table_fills_records_in_order_and_leaves_the_rest(rt: HostRuntime) -> Result<(), Fail> {
    let mut records = [entry(7, 8, 9); 4];
    let n = load_table(&TABLE, extent(0, 0x1031), &mut records)?;
    assert_eq!(rt; n, 3);
    assert_eq!(rt; records[1].begin, Rva(0x1010));
    assert_eq!(rt; records[2].end, Rva(0x1031));
    assert_eq!(rt; records[3], entry(7, 8, 9));
    Ok(())
}

#[test]
fn a_refused_table_changes_no_record(rt: HostRuntime) {
    let mut records = [entry(7, 8, 9); 2];
    assert_eq!(rt;
        load_table(&TABLE, extent(0, 0x1030), &mut records),
        Err(TableRefusal::BadTable)
    );
    assert_eq!(rt;
        load_table(&TABLE, extent(u64::MAX, 0x1031), &mut records),
        Err(TableRefusal::BadModule)
    );
    assert_eq!(rt;
        load_table(&TABLE, extent(0, 0x1031), &mut records),
        Err(TableRefusal::TooFewRecords)
    );
    assert_eq!(rt; records[0], entry(7, 8, 9));
    assert_eq!(rt; records[1], entry(7, 8, 9));
}

fn begin_at(module: &Module, rva: u32) -> Option<Rva> {
    module.entry_at(Rva(rva)).map(|found| found.begin)
}

#[test]
fn an_entry_holds_its_first_byte_and_not_its_end(rt: HostRuntime) {
    let entries = [
        entry(0x1000, 0x1010, 0),
        entry(0x1010, 0x1020, 0),
        entry(0x1030, 0x1031, 0),
    ];
    let module = Module {
        extent: extent(0x4000_0000, 0x2000),
        entries: &entries,
        area: InfoArea {
            bytes: &INFO,
            start: Rva(0x2000),
        },
    };
    assert_eq!(rt; module.check(), Ok(()));
    assert_eq!(rt; begin_at(&module, 0xfff), None);
    assert_eq!(rt; begin_at(&module, 0x1000), Some(Rva(0x1000)));
    assert_eq!(rt; begin_at(&module, 0x100f), Some(Rva(0x1000)));
    assert_eq!(rt; begin_at(&module, 0x1010), Some(Rva(0x1010)));
    assert_eq!(rt; begin_at(&module, 0x1020), None);
    assert_eq!(rt; begin_at(&module, 0x1030), Some(Rva(0x1030)));
    assert_eq!(rt; begin_at(&module, 0x1031), None);
}

#[test]
fn the_codes_of_an_info_with_their_slots(rt: HostRuntime) -> Result<(), Fail> {
    let none = Code {
        slot: 99,
        offset: 0,
        operation: Operation::SetFrame,
    };
    let mut codes = [none; 6];
    let area = InfoArea {
        bytes: &INFO,
        start: Rva(0x2000),
    };
    let n = list_codes(area, Rva(0x2000), &mut codes)?;
    assert_eq!(rt; n, 5);
    let save = Operation::Save {
        register: 6,
        offset: 40,
    };
    assert_eq!(rt; codes[0].operation, save);
    assert_eq!(rt; codes[0].offset, 16);
    assert_eq!(rt; codes[1].slot, 2);
    assert_eq!(rt; codes[4].slot, 5);
    assert_eq!(rt; codes[5].slot, 99);
    Ok(())
}

#[test]
fn slots_and_handler_data_are_parts_of_the_area(rt: HostRuntime) -> Result<(), Fail> {
    let bytes = [
        0, 0, 0, 0, 0x09, 4, 1, 0, 0x04, 0x42, 0, 0, 0x50, 0x10, 0, 0, 0x2a,
    ];
    let area = InfoArea {
        bytes: &bytes,
        start: Rva(0x1ffc),
    };
    let info = read_info(area, Rva(0x2000))?;
    assert_eq!(rt; info.place, 8);
    assert_eq!(rt; info.slots, [0x04, 0x42].as_slice());
    match info.tail {
        Tail::Handler { rva, data } => {
            assert_eq!(rt; rva, Rva(0x1050));
            assert_eq!(rt; data, [0x2a].as_slice());
            Ok(())
        }
        _ => Err(Fail::new("a handler was expected")),
    }
}
