use super::*;
use crate::binary::Binary;
use ota_core::Memory;
use std::alloc::Global;

fn ef(contents: Contents) -> File {
    File {
        remote: true,
        active: true,
        contents,
    }
}

fn counter(alloc: Global) -> Result<File, Memory> {
    let records = Records::filled(alloc, 3, 3, 0)?;
    Ok(ef(Contents::Cyclic(records)))
}

fn gives(found: Result<&[u8], Refusal>, octets: &[u8]) -> bool {
    match found {
        Ok(found) => found == octets,
        Err(_) => false,
    }
}

#[test]
fn octets_are_written_and_read(rt: HostRuntime) -> Result<(), Memory> {
    let binary = Binary::filled(rt.alloc(), 4, 0xFF)?;
    let mut file = ef(Contents::Transparent(binary));
    assert_eq!(rt; file.write_binary(2, &[1, 2]), Ok(()));
    assert!(rt; gives(file.read_binary(1, 0), &[0xFF, 1, 2]));
    assert_eq!(rt; file.write_binary(3, &[1, 2]), Err(Refusal::WrongOffset));
    assert_eq!(rt; file.read_binary(4, 0).err(), Some(Refusal::WrongOffset));
    assert_eq!(rt; file.mark(false), Ok(()));
    assert_eq!(rt;
        file.read_binary(0, 1).err(),
        Some(Refusal::ConditionsNotMet)
    );
    Ok(())
}

#[test]
fn records_are_written_and_found(rt: HostRuntime) -> Result<(), Memory> {
    let records = Records::filled(rt.alloc(), 2, 3, 0xFF)?;
    let mut file = ef(Contents::Linear(records));
    assert_eq!(rt; file.write_record(2, &[7, 8]), Ok(()));
    assert_eq!(rt; file.write_record(3, &[7, 9]), Ok(()));
    assert!(rt; gives(file.read_record(2, 2), &[7, 8]));
    match file.search_record(1, &[7]) {
        Ok(numbers) => assert_eq!(rt; numbers.as_slice(), [2, 3].as_slice()),
        Err(_) => assert!(rt; false, "two records begin with 7"),
    }
    Ok(())
}

#[test]
fn newest_record_is_record_1(rt: HostRuntime) -> Result<(), Memory> {
    let mut file = counter(rt.alloc())?;
    assert_eq!(rt; file.push_record(&[0, 0, 1]), Ok(()));
    assert_eq!(rt; file.push_record(&[0, 0, 2]), Ok(()));
    match file.increase(0x0100) {
        Ok(sum) => assert_eq!(rt; sum.as_slice(), [0, 1, 2].as_slice()),
        Err(_) => assert!(rt; false, "the sum fits"),
    }
    assert!(rt; gives(file.read_record(1, 3), &[0, 1, 2]));
    assert!(rt; gives(file.read_record(3, 3), &[0, 0, 1]));
    match file.increase(0xFF_FFFF) {
        Ok(_) => assert!(rt; false, "three octets don't hold the sum"),
        Err(refusal) => assert_eq!(rt; refusal, Refusal::GreatestReached),
    }
    Ok(())
}
