// A bare site over a disk in memory.
use crate::{BareSite, SiteCalls, SiteFault};
use disk_model::{DiskCalls, DiskFault, MemDisk};
use ota_core::{CardId, Reference};
use std::test::Fail;

/// Hands the only piece of a packet to the port.
fn sent<S: SiteCalls>(site: &mut S) -> Result<(), SiteFault> {
    site.send(CardId(8901), &[1, 2, 3], Reference::Short(7), 1)
}

/// Whether the port has no message.
fn has_none<S: SiteCalls>(site: &mut S) -> Result<bool, SiteFault> {
    Ok(site.poll()?.is_none())
}

/// The length of the disk, once it is synced.
fn synced_length<S: SiteCalls>(site: &mut S) -> Result<u64, DiskFault> {
    site.sync()?;
    site.len()
}

#[test]
fn a_bare_site_passes_the_calls_of_its_disk_on(rt: HostRuntime) -> Result<(), Fail> {
    let alloc = rt.alloc();
    let disk = MemDisk::of(alloc, &[1, 2, 3, 4])?.failing(vec![in alloc; 3]?);
    let mut site = BareSite::new(alloc, disk);
    assert_eq!(rt; synced_length(&mut site), Ok(4));
    assert_eq!(rt; sent(&mut site), Ok(()));
    assert_eq!(rt; has_none(&mut site), Ok(true));
    assert_eq!(rt; synced_length(&mut site), Err(DiskFault::Failed));
    assert_eq!(rt; site.disk().content(), [1, 2, 3, 4].as_slice());
    assert_eq!(rt; site.disk().calls().len(), 3);
    Ok(())
}
