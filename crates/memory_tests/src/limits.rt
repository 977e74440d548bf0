// The limit layer: windows, their refusals, and piles of limits.
use crate::{byte_through, lacking};
use layout::address::Address;
use limit::layer::Limit;
use limit::window::WindowRefusal;
use memory::flat::FlatImage;
use memory::reading::Memory;
use std::test::Fail;

#[test]
fn without_a_window_all_is_shown(rt: HostRuntime) -> Result<(), Fail> {
    let mut limit = Limit::new(FlatImage::new(Address(0x10), &[5, 6])?);
    assert_eq!(rt; limit.read(Address(0x11)), Ok(6));
    assert_eq!(rt; limit.read(Address(0x12)), Err(lacking(0x12)));
    Ok(())
}

#[test]
fn both_ends_belong_to_a_window(rt: HostRuntime) -> Result<(), Fail> {
    let mut limit = Limit::new(FlatImage::new(Address(0x10), &[0, 1, 2, 3, 4])?);
    limit.admit(Address(0x11), Address(0x12))?;
    assert_eq!(rt; limit.read(Address(0x10)), Err(lacking(0x10)));
    assert_eq!(rt; limit.read(Address(0x11)), Ok(1));
    assert_eq!(rt; limit.read(Address(0x12)), Ok(2));
    assert_eq!(rt; limit.read(Address(0x13)), Err(lacking(0x13)));
    Ok(())
}

#[test]
fn windows_come_in_any_order_and_may_touch(rt: HostRuntime) -> Result<(), Fail> {
    let mut limit = Limit::new(FlatImage::new(Address(0x10), &[0, 1, 2, 3, 4])?);
    limit.admit(Address(0x13), Address(0x13))?;
    limit.admit(Address(0x11), Address(0x12))?;
    assert_eq!(rt;
        limit.admit(Address(0x12), Address(0x14)),
        Err(WindowRefusal::Crossing)
    );
    assert_eq!(rt;
        limit.admit(Address(0x15), Address(0x14)),
        Err(WindowRefusal::Crossing)
    );
    limit.admit(Address(0x14), Address(0x14))?;
    assert_eq!(rt; limit.read(Address(0x10)), Err(lacking(0x10)));
    assert_eq!(rt; limit.read(Address(0x12)), Ok(2));
    assert_eq!(rt; limit.read(Address(0x14)), Ok(4));
    Ok(())
}

#[test]
fn the_seventeenth_window_is_refused(rt: HostRuntime) -> Result<(), Fail> {
    let mut limit = Limit::new(FlatImage::new(Address(0), &[9])?);
    for i in 0u64..16 {
        limit.admit(Address(2 * i), Address(2 * i))?;
    }
    assert_eq!(rt;
        limit.admit(Address(100), Address(101)),
        Err(WindowRefusal::Full)
    );
    assert_eq!(rt;
        limit.admit(Address(30), Address(31)),
        Err(WindowRefusal::Crossing)
    );
    assert_eq!(rt; limit.read(Address(0)), Ok(9));
    assert_eq!(rt; limit.read(Address(100)), Err(lacking(100)));
    Ok(())
}

#[test]
fn a_window_may_hold_every_address(rt: HostRuntime) -> Result<(), Fail> {
    let mut limit = Limit::new(FlatImage::new(Address(u64::MAX), &[9])?);
    limit.admit(Address(0), Address(u64::MAX))?;
    assert_eq!(rt; limit.read(Address(u64::MAX)), Ok(9));
    assert_eq!(rt;
        limit.admit(Address(0), Address(0)),
        Err(WindowRefusal::Crossing)
    );
    Ok(())
}

#[test]
fn two_limits_show_what_both_admit(rt: HostRuntime) -> Result<(), Fail> {
    let mut inner = Limit::new(FlatImage::new(Address(0), &[0, 1, 2, 3])?);
    inner.admit(Address(0), Address(2))?;
    let mut pile = Limit::new(inner);
    pile.admit(Address(1), Address(3))?;
    assert_eq!(rt; byte_through(&mut pile, Address(0)), Err(lacking(0)));
    assert_eq!(rt; byte_through(&mut pile, Address(2)), Ok(2));
    assert_eq!(rt; byte_through(&mut pile, Address(3)), Err(lacking(3)));
    Ok(())
}
