// Items read through piles, and words in a slice.
use crate::{lacking, word_through};
use layout::address::Address;
use layout::word::{PastEnd, word_at, write_word};
use limit::layer::Limit;
use memory::flat::FlatImage;
use memory::item::{ItemFault, read_item};
use memory::range::DumpRange;
use memory::sparse::SparseDump;
use std::test::Fail;

fn unread(at: u64) -> Result<u64, ItemFault> {
    Err(ItemFault::Unread(lacking(at)))
}

#[test]
fn a_word_is_little_endian(rt: HostRuntime) -> Result<(), Fail> {
    let bytes = [1, 2, 3, 4, 5, 6, 7, 8, 9, 10, 11, 12, 13, 14, 15, 16];
    let mut flat = FlatImage::new(Address(0x100), &bytes)?;
    assert_eq!(rt;
        read_item(&mut flat, Address(0x101)),
        Ok(0x0908_0706_0504_0302u64)
    );
    assert_eq!(rt;
        read_item(&mut flat, Address(0x100)),
        Ok(0x100f_0e0d_0c0b_0a09_0807_0605_0403_0201u128)
    );
    Ok(())
}

#[test]
fn the_first_lacking_byte_ends_a_word(rt: HostRuntime) -> Result<(), Fail> {
    let ranges = [DumpRange {
        start: Address(0x100),
        length: 8,
        place: 0,
    }];
    let mut dump = SparseDump::empty();
    dump.load(&ranges, &[0, 0, 0, 0, 0, 0, 0, 0])?;
    let mut inner = Limit::new(dump);
    inner.admit(Address(0x100), Address(0x104))?;
    let mut pile = Limit::new(inner);
    assert_eq!(rt; word_through(&mut pile, Address(0x100)), unread(0x105));
    assert_eq!(rt; word_through(&mut pile, Address(0xff)), unread(0xff));
    Ok(())
}

#[test]
fn a_word_past_the_last_address_is_50_unless_a_byte_was_lacking(
    rt: HostRuntime,
) -> Result<(), Fail> {
    let at = u64::MAX - 2;
    let mut whole = Limit::new(Limit::new(FlatImage::new(Address(at), &[1, 2, 3])?));
    assert_eq!(rt;
        word_through(&mut whole, Address(at)),
        Err(ItemFault::PastEnd(Address(at)))
    );
    assert_eq!(rt; word_through(&mut whole, Address(at - 1)), unread(at - 1));
    Ok(())
}

#[test]
fn words_in_a_slice(rt: HostRuntime) {
    let mut bytes = [0x34, 0x12, 0, 0, 0xff];
    assert_eq!(rt; word_at(&bytes, 0), Some(0x1234u16));
    assert_eq!(rt; word_at(&bytes, 1), Some(0xff00_0012u32));
    assert_eq!(rt; word_at::<4, u32>(&bytes, 2), None);
    assert_eq!(rt; word_at::<8, u64>(&bytes, 0), None);
    assert_eq!(rt; write_word(&mut bytes, 2, 7u32), Err(PastEnd));
    assert_eq!(rt; write_word(&mut bytes, 1, 0x0403_0201u32), Ok(()));
    assert_eq!(rt; bytes, [0x34, 1, 2, 3, 4]);
}
