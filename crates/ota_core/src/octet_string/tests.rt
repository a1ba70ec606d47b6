use super::*;
use std::test::Fail;

#[test]
fn octets_keep_their_list(rt: HostRuntime) -> Result<(), Fail> {
    let alloc = rt.alloc();
    let octets = Octets::from_slice(alloc, &[0x03, 0x69, 0x81])?;
    assert_eq!(rt; octets.as_slice(), [0x03, 0x69, 0x81].as_slice());
    let copy = octets.copy()?;
    assert_eq!(rt; copy.as_slice(), octets.as_slice());
    Ok(())
}

#[test]
fn room_takes_what_fits(rt: HostRuntime) -> Result<(), Fail> {
    let alloc = rt.alloc();
    let room = Octets::room(alloc, 3)?;
    assert_eq!(rt; room.put(&[0x90, 0x00]).as_slice(), [0x90, 0x00].as_slice());
    let full = Octets::room(alloc, 2)?;
    assert_eq!(rt; full.put(&[0x6A, 0x82]).as_slice(), [0x6A, 0x82].as_slice());
    let none = Octets::room(alloc, 0)?;
    assert_eq!(rt; none.put(&[]).as_slice(), [].as_slice());
    Ok(())
}
