// Flat images and sparse dumps: what they show, what they lack, what they refuse.
use crate::lacking;
use layout::address::Address;
use memory::flat::FlatImage;
use memory::range::{DumpRange, SourceRefusal, check_ranges};
use memory::reading::Memory;
use memory::sparse::SparseDump;
use std::test::Fail;

fn range(start: u64, length: u64, place: u64) -> DumpRange {
    DumpRange {
        start: Address(start),
        length,
        place,
    }
}

#[test]
fn a_hole_is_refused_with_its_address(rt: HostRuntime) -> Result<(), Fail> {
    let ranges = [range(0x1000, 2, 0), range(0x1008, 2, 2)];
    let mut dump = SparseDump::empty();
    dump.load(&ranges, &[0x11, 0x22, 0x00, 0x44])?;
    assert_eq!(rt; dump.read(Address(0x1001)), Ok(0x22));
    assert_eq!(rt; dump.read(Address(0x1002)), Err(lacking(0x1002)));
    assert_eq!(rt; dump.read(Address(0x1007)), Err(lacking(0x1007)));
    assert_eq!(rt; dump.read(Address(0x1008)), Ok(0x00));
    assert_eq!(rt; dump.read(Address(0x100a)), Err(lacking(0x100a)));
    Ok(())
}

#[test]
fn an_empty_dump_shows_nothing(rt: HostRuntime) -> Result<(), Fail> {
    let mut dump = SparseDump::empty();
    assert_eq!(rt; dump.read(Address(0)), Err(lacking(0)));
    dump.load(&[], &[1, 2, 3])?;
    assert_eq!(rt; dump.read(Address(1)), Err(lacking(1)));
    Ok(())
}

#[test]
fn sources_may_end_at_the_last_address(rt: HostRuntime) -> Result<(), Fail> {
    let last = u64::MAX;
    let mut flat = FlatImage::new(Address(last - 1), &[7, 8])?;
    assert_eq!(rt; flat.read(Address(last)), Ok(8));
    assert_eq!(rt; flat.read(Address(0)), Err(lacking(0)));
    assert_eq!(rt; check_ranges(&[range(last - 1, 2, 0)], 2), Ok(()));
    assert_eq!(rt;
        check_ranges(&[range(last - 1, 3, 0)], 3),
        Err(SourceRefusal::Disorder)
    );
    Ok(())
}

#[test]
fn a_flat_image_is_refused_like_one_range(rt: HostRuntime) {
    assert_eq!(rt;
        FlatImage::new(Address(5), &[]).err(),
        Some(SourceRefusal::OutsideRun)
    );
    assert_eq!(rt;
        FlatImage::new(Address(u64::MAX), &[1, 2]).err(),
        Some(SourceRefusal::Disorder)
    );
}

#[test]
fn ranges_are_checked_for_bytes_before_order(rt: HostRuntime) {
    let outside = Err(SourceRefusal::OutsideRun);
    let disorder = Err(SourceRefusal::Disorder);
    assert_eq!(rt; check_ranges(&[range(8, 4, 0), range(0, 4, 5)], 8), outside);
    assert_eq!(rt;
        check_ranges(&[range(8, 4, 0), range(0, 4, 4)], 8),
        disorder
    );
    assert_eq!(rt; check_ranges(&[range(8, 0, 0)], 8), outside);
    assert_eq!(rt; check_ranges(&[range(0, 4, u64::MAX)], 8), outside);
    assert_eq!(rt;
        check_ranges(&[range(0, 4, 0), range(3, 4, 0)], 8),
        disorder
    );
    assert_eq!(rt; check_ranges(&[range(0, 4, 0), range(4, 4, 0)], 8), Ok(()));
}

#[test]
fn a_refused_load_keeps_the_dump(rt: HostRuntime) -> Result<(), Fail> {
    let good = [range(0x20, 1, 1)];
    let bad = [range(0x30, 9, 0)];
    let mut dump = SparseDump::empty();
    dump.load(&good, &[1, 2])?;
    assert_eq!(rt; dump.load(&bad, &[3, 4]), Err(SourceRefusal::OutsideRun));
    assert_eq!(rt; dump.read(Address(0x20)), Ok(2));
    assert_eq!(rt; dump.read(Address(0x30)), Err(lacking(0x30)));
    Ok(())
}
