// Bytes that are an epilogue, and bytes that are none.
use layout::address::Address;
use memory::flat::FlatImage;
use memory::range::DumpRange;
use memory::reading::Lacking;
use memory::sparse::SparseDump;
use std::test::Fail;
use unwind::epilogue::is_epilogue;

// Whether `bytes` are found, in an entry that ends with them, whose function has this frame register.
fn found(frame: u8, bytes: &[u8]) -> Result<bool, Fail> {
    let mut image = FlatImage::new(Address(0x1000), bytes)?;
    let left = u32::try_from(bytes.len())?;
    Ok(is_epilogue(&mut image, frame, Address(0x1000), left)?)
}

#[test]
fn closes(rt: HostRuntime) -> Result<(), Fail> {
    assert_eq!(rt; found(0, &[0xc3])?, true);
    assert_eq!(rt; found(0, &[0xf3, 0xc3])?, true);
    assert_eq!(rt; found(0, &[0xf3, 0x90])?, false);
    assert_eq!(rt; found(0, &[0xeb, 0x00])?, false);
    Ok(())
}

#[test]
fn pops(rt: HostRuntime) -> Result<(), Fail> {
    assert_eq!(rt;
        found(0, &[0x5b, 0x5d, 0x41, 0x5c, 0x41, 0x5f, 0xc3])?,
        true
    );
    assert_eq!(rt; found(0, &[0x5c, 0xc3])?, false);
    assert_eq!(rt; found(0, &[0x41, 0x57, 0xc3])?, false);
    assert_eq!(rt; found(0, &[0x5b, 0x48, 0x83, 0xc4, 0x08, 0xc3])?, false);
    Ok(())
}

#[test]
fn adds(rt: HostRuntime) -> Result<(), Fail> {
    assert_eq!(rt; found(0, &[0x48, 0x83, 0xc4, 0x38, 0x5b, 0xc3])?, true);
    assert_eq!(rt; found(0, &[0x48, 0x81, 0xc4, 0x80, 0, 0, 0, 0xc3])?, true);
    assert_eq!(rt; found(0, &[0x48, 0x81, 0xc4, 0x80, 0, 0, 0xc3])?, false);
    assert_eq!(rt; found(0, &[0x48, 0x83, 0xec, 0x38, 0xc3])?, false);
    assert_eq!(rt; found(0, &[0x49, 0x83, 0xc4, 0x38, 0xc3])?, false);
    Ok(())
}

// `lea rsp, [F + d]`, only with the function's own frame register.
#[test]
fn leas(rt: HostRuntime) -> Result<(), Fail> {
    assert_eq!(rt;
        found(5, &[0x48, 0x8d, 0x65, 0x18, 0x5b, 0x5d, 0xc3])?,
        true
    );
    assert_eq!(rt;
        found(5, &[0x48, 0x8d, 0xa5, 0, 1, 0, 0, 0x5d, 0xc3])?,
        true
    );
    assert_eq!(rt;
        found(3, &[0x48, 0x8d, 0x65, 0x18, 0x5b, 0x5d, 0xc3])?,
        false
    );
    assert_eq!(rt; found(0, &[0x48, 0x8d, 0x60, 0x18, 0xc3])?, false);
    assert_eq!(rt;
        found(13, &[0x49, 0x8d, 0x65, 0x18, 0x41, 0x5d, 0xc3])?,
        true
    );
    assert_eq!(rt;
        found(13, &[0x48, 0x8d, 0x65, 0x18, 0x41, 0x5d, 0xc3])?,
        false
    );
    assert_eq!(rt; found(12, &[0x49, 0x8d, 0x64, 0x24, 0x18, 0xc3])?, false);
    Ok(())
}

// The entry's end ends the reading, and no byte is read there.
#[test]
fn the_end_of_the_entry(rt: HostRuntime) -> Result<(), Fail> {
    let mut image = FlatImage::new(Address(0x1000), &[0x5b, 0xc3])?;
    assert_eq!(rt; is_epilogue(&mut image, 0, Address(0x1000), 1), Ok(false));
    assert_eq!(rt; is_epilogue(&mut image, 0, Address(0x1000), 0), Ok(false));
    assert_eq!(rt; is_epilogue(&mut image, 0, Address(0x1002), 0), Ok(false));
    Ok(())
}

// A byte is read only while those before it fit: a hole behind a byte that does not is no matter.
#[test]
fn holes(rt: HostRuntime) -> Result<(), Fail> {
    let ranges = [DumpRange {
        start: Address(0x1000),
        length: 2,
        place: 0,
    }];
    let mut dump = SparseDump::new(&ranges, &[0x5b, 0x41])?;
    let hole = Lacking {
        at: Address(0x1002),
    };
    assert_eq!(rt; is_epilogue(&mut dump, 0, Address(0x1000), 8), Err(hole));
    let mut dump = SparseDump::new(&ranges, &[0x5b, 0x90])?;
    assert_eq!(rt; is_epilogue(&mut dump, 0, Address(0x1000), 8), Ok(false));
    let mut dump = SparseDump::new(&ranges, &[0x5b, 0xc3])?;
    assert_eq!(rt; is_epilogue(&mut dump, 0, Address(0x1000), 8), Ok(true));
    Ok(())
}
